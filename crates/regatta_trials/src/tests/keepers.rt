//! A keeper is opened over an office and a log that were opened, and over no other journal.
ghost use Rattle.std.specs.Prelude.{◌≡◌, []};

use crate::MemoryLog;
use regatta_desk::{Office, Opened};
use regatta_keep::{Opened as OpenedLog, open};
use regatta_keeper::{Keeper, KeeperFault, KeptName};
use regatta_tables::read_journal;
use regatta_terms::{Absent, Rules};
use regatta_watch::History;
use std::alloc::Global;
use std::marker::Brand;
use std::sync::Wait;
use std::test::Fail;

/// What the office starts with.
static START: &[u8] = b"REGATTA 2\n1 1 SCORER ENTER GBR1\n";

/// A log with these bytes, opened.
fn opened_log(alloc: Global, bytes: &[u8]) -> Option<OpenedLog<MemoryLog>> {
    let log = MemoryLog::new(alloc, bytes.to_vec(alloc).ok()?, 3);
    open(alloc, log).ok()
}

/// An office with this start, which isn't named yet.
fn opened_office<R: Wait>(rt: &R, alloc: Global) -> Option<Opened<&R>> {
    let journal = read_journal(alloc, START).ok()?;
    let rules = Rules::new(Absent::A52, None, &[2], false).unwrap();
    Office::open(rt, alloc, &rules, 1, journal.as_slice()).ok()
}

/// Why no keeper is opened over this log for the office.
fn fault_of<N: KeptName, H: Wait + Drop, R: Wait>(
    rt: &R,
    alloc: Global,
    office: Opened<H>,
    log: OpenedLog<MemoryLog>,
    history: History,
) -> Option<KeeperFault>
    requires history { office.history ≡ N.history }
    requires rules { office.rules ≡ N.rules }
    requires kept { history.history ≡ N.kept }
    requires nothing { history.journal ≡ [] }
{
    let (office, _) = office.split::<N>().ok()?;
    let mut guard = office.desk(rt);
    let desk = &mut *guard;
    match Keeper::open(alloc, desk, log, history) {
        Ok(_) => None,
        Err(unkept) => Some(unkept.fault),
    }
}

/// The same of a new office.
fn fault_at<R: Wait>(rt: &R, alloc: Global, bytes: &[u8]) -> Option<KeeperFault> {
    let office = opened_office(rt, alloc)?;
    let log = opened_log(alloc, bytes)?;
    let history = History::new(alloc).ok()?;
    fault_of::<Brand, _, _>(rt, alloc, office, log, history)
}

#[test]
fn another_journal_opens_no_keeper(rt: HostRuntime) -> Result<(), Fail> {
    let other = fault_at(&rt, rt.alloc(), b"1 1 SCORER ENTER GBR2\n");
    assert_eq!(rt; other, Some(KeeperFault::Other));
    let same = fault_at(&rt, rt.alloc(), START);
    assert_eq!(rt; same, None);
    Ok(())
}
