//! Clients served side by side, under a gate that holds one of them back.
ghost use Rattle.std.specs.Prelude.{◌≡◌};

use super::offices::opened_office;
use super::sessions::has_journal;
use super::wires::{Hold, door_of_two, was_sent};
use super::*;
use regatta_office::{Door, Gate, Office, OfficeName, Opened, Pass, serve};
use std::marker::Brand;
use std::sync::Wait;
use std::thread::Threads;
use std::time::Clock;

/// What serving should leave: how many passes come back, and the journal.
#[derive(Drop)]
pub(crate) struct Served {
    pub(crate) passes: usize,
    pub(crate) journal: &'static [u8],
}

/// How many passes come back from serving this door, if it succeeds.
fn passes_back<N, H, R, D, G>(
    rt: &R,
    alloc: Global,
    office: &Office<N, H>,
    passes: Vec<Pass<N>>,
    door: &mut D,
    gate: &G,
) -> Option<usize>
where
    N: OfficeName + Send + Sync,
    H: Wait + Drop + Send,
    R: Threads + Wait + Clock + Sync,
    D: Door,
    G: Gate + Sync,
{
    match serve(rt, alloc, office, door, passes, gate) {
        Ok(back) => Some(back.len()),
        Err(_) => None,
    }
}

/// Whether serving this door at this office leaves this.
fn leaves_at<N, H, R, D, G>(
    rt: &R,
    alloc: Global,
    opened: Opened<H>,
    door: &mut D,
    gate: &G,
    left: &Served,
) -> bool
where
    N: OfficeName + Send + Sync,
    H: Wait + Drop + Send,
    R: Threads + Wait + Clock + Sync,
    D: Door,
    G: Gate + Sync,
    requires { (opened.history ≡ N.history) × (opened.rules ≡ N.rules) }
{
    match opened.split::<N>() {
        Ok((office, mut passes)) => {
            // the lowest seat is lent first, whatever the order of the passes was
            passes.reverse();
            let back = passes_back(rt, alloc, &office, passes, door, gate);
            (back == Some(left.passes)) & has_journal(rt, alloc, &office, left.journal)
        }
        Err(_) => false,
    }
}

/// Whether serving this door, at an office with `seats` seats in which nothing was entered, leaves
/// this.
pub(crate) fn leaves<R, D, G>(
    rt: &R,
    alloc: Global,
    seats: u8,
    door: &mut D,
    gate: &G,
    left: &Served,
) -> bool
where
    R: Threads + Wait + Clock + Sync,
    D: Door,
    G: Gate + Sync,
{
    match opened_office(rt, alloc, seats) {
        Some(opened) => leaves_at::<Brand, _, _, _, _>(rt, alloc, opened, door, gate, left),
        None => false,
    }
}

/// The first client's line is held back until the second's was answered.
#[test]
fn two_clients_side_by_side(rt: HostRuntime) -> Result<(), Fail> {
    let alloc = rt.alloc();
    let gate = Hold::new();
    let (mut door, mut ends) = door_of_two(&rt, alloc)?;
    let left = Served {
        passes: 2,
        journal: b"2 1 SCORER ENTER B\n1 1 SCORER ENTER A\n",
    };
    let are_left = leaves(&rt, alloc, 2, &mut door, &gate, &left);
    let are_sent = was_sent(alloc, &mut ends[0], b"OK 2 1= 0.0\nBYE\n")
        & was_sent(alloc, &mut ends[1], b"OK 1 1 0.0\n");
    assert!(rt; are_left & are_sent);
    assert_eq!(rt; gate.ends(), 21, "the first has quit, the other has closed");
    Ok(())
}
