//! What the program prints, over streams in memory.

use crate::command_line::program;
use regatta_streams::Tape;
use std::fs::Files;
use std::test::Fail;

/// More bytes than any of these runs reads or writes.
const PLENTY: usize = 2048;

/// Whether a run of these words over this sheet writes and says this, and ends with this status.
fn ends<R: Files + AllocGlobal>(
    rt: &R,
    words: &[&str],
    sheet: &str,
    status: u8,
    written: &str,
    said: &str,
) -> Result<bool, Fail> {
    let mut input = Tape::new(rt.alloc(), sheet.as_bytes(), 7, PLENTY, 0)?;
    let mut output = Tape::new(rt.alloc(), b"", 1, 0, PLENTY)?;
    let mut errors = Tape::new(rt.alloc(), b"", 1, 0, PLENTY)?;
    let found = program(rt, words, &mut input, &mut output, &mut errors);
    Ok(
        found == status
            && output.written() == written.as_bytes()
            && errors.written() == said.as_bytes(),
    )
}

#[test]
fn sums_are_printed(rt: HostRuntime) -> Result<(), Fail> {
    let sheet = "Sail,Rating,Elapsed,Laps\nGBR 7,1103,1:02:31,3\nNED 1,1000,1:00:00,4\n";
    let words = [
        "sums",
        "--race",
        "7",
        "--system",
        "py",
        "--rounding",
        "down",
    ];
    let written = "RACE 7 down\nGBR7 3751 * 4 * 1000 / 3 / 1103 -> 4534\n\
        NED1 3600 * 4 * 1000 / 4 / 1000 -> 3600\n";
    assert!(rt; ends(&rt, &words, sheet, 0, written, "")?);
    let sheet =
        "Sail,Rating,Start,Finish,Distance\nA,-12,23:50:00,0:40:00,6.25\nB,120.5,,0:50:00,\n";
    let words = ["sums", "--race", "07", "--system", "tod", "--overnight"];
    let written = "RACE 7 half-up\nA 3000 + 1200 * 625 / 10000 -> 3075\n\
        B 3600 - 12050 * 625 / 10000 -> 2847\n";
    assert!(rt; ends(&rt, &words, sheet, 0, written, "")?);
    Ok(())
}

#[test]
fn settings_are_refused(rt: HostRuntime) -> Result<(), Fail> {
    let cases = [
        (
            [
                "lines",
                "--race",
                "41",
                "--system",
                "py",
                "--rounding",
                "up",
            ],
            "times: settings fault 1: the race isn't 1 to 40\n",
        ),
        (
            ["lines", "--race", "1", "--system", "ph", "--rounding", "up"],
            "times: settings fault 2: the system isn't tcf, py or tod\n",
        ),
        (
            [
                "lines",
                "--race",
                "1",
                "--system",
                "py",
                "--rounding",
                "near",
            ],
            "times: settings fault 3: the rounding isn't half-up, half-down, down or up\n",
        ),
    ];
    for (words, said) in cases {
        assert!(rt; ends(&rt, &words, "Sail,Rating\n", 2, "", said)?);
    }
    Ok(())
}

/// Whether a sheet is refused with this text, after `times: ` and before the end of the line.
fn refuses<R: Files + AllocGlobal>(
    rt: &R,
    system: &str,
    sheet: &str,
    said: &str,
) -> Result<bool, Fail> {
    let said = format!(in rt.alloc(); "times: {said}\n")?;
    let words = ["lines", "--race", "1", "--system", system];
    ends(rt, &words, sheet, 1, "", said.as_str())
}

#[test]
fn faults_of_ratings_are_printed(rt: HostRuntime) -> Result<(), Fail> {
    let cases = [
        (
            "Sail,Elapsed\nA,60",
            "ratings fault 7 row 1: no column of ratings",
        ),
        (
            "Sail,Rating\nA,0.98",
            "ratings fault 8 row 2: the rating isn't one of the system",
        ),
        (
            "Sail,Rating\nA,1\na,1",
            "ratings fault 4 row 3: entries fault 4: sail in row 3 for the second time",
        ),
    ];
    for (sheet, said) in cases {
        assert!(rt; refuses(&rt, "py", sheet, said)?);
    }
    Ok(())
}

#[test]
fn faults_of_a_sheet_are_printed(rt: HostRuntime) -> Result<(), Fail> {
    let cases = [
        (
            "Sail,Rating,Elapsed\nA,,60",
            "sheet fault 9 row 2: A has no rating",
        ),
        (
            "Sail,Rating,Elapsed\nA,1,6:6",
            "sheet fault 10 row 2: a time can't be read",
        ),
        (
            "Sail,Rating,Elapsed\nA,1,",
            "sheet fault 11 row 2: neither an elapsed time, nor a start and a finish",
        ),
        (
            "Sail,Rating,Elapsed,Finish\nA,1,60,9:00:00",
            "sheet fault 12 row 2: an elapsed time and a finish",
        ),
        (
            "Sail,Rating,Start,Finish\nA,1,9:00:00,8:59:59",
            "sheet fault 13 row 2: A finishes before she starts",
        ),
        (
            "Sail,Rating,Elapsed,Laps\nA,1,60,\nB,1,60,2",
            "sheet fault 14 row 3: the laps aren't 1 to 99, or boats above have none",
        ),
        (
            "Sail,Rating,Elapsed\nA,1,999999",
            "sheet fault 18 row 2: the corrected time of A is above 999999 seconds",
        ),
    ];
    for (sheet, said) in cases {
        assert!(rt; refuses(&rt, "py", sheet, said)?);
    }
    Ok(())
}

#[test]
fn faults_of_the_systems_are_printed(rt: HostRuntime) -> Result<(), Fail> {
    let cases = [
        (
            "tod",
            "Sail,Rating,Elapsed\nA,1,60",
            "sheet fault 15 row 2: the distance is missing, or isn't 0.01 to 999.99 miles",
        ),
        (
            "tcf",
            "Sail,Rating,Elapsed,Laps\nA,1,60,2",
            "sheet fault 16 row 2: A has laps, which only Portsmouth takes",
        ),
        (
            "tod",
            "Sail,Rating,Elapsed,Distance\nA,30,60,2.01",
            "sheet fault 17 row 2: the corrected time of A is below zero",
        ),
    ];
    for (system, sheet, said) in cases {
        assert!(rt; refuses(&rt, system, sheet, said)?);
    }
    Ok(())
}
