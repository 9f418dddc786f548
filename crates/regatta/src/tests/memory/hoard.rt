//! Memory that runs out, for tests of calls that take the one heap there is.
//!
//! A `Hoard` takes all addresses that the process can have, without touching them. A test leaves a
//! call as many bytes as it likes: the heap itself refuses a call that asks for more. Each test is a
//! process of its own, and makes one hoard.

use regatta_scores::BoatLine;
use regatta_terms::{Entry, MAX_BOATS, MAX_ENTRIES};
use std::alloc::{AllocError, Global};
use std::fs;
use std::fs::Files;
use std::mem::size_of;

/// What came of a call.
#[derive(Clone, Copy)]
pub(crate) enum Outcome {
    /// It answered as with ample memory.
    Ordinary,
    /// It answered as out of memory, and left all that it should leave.
    OutOfMemory,
    /// Anything else.
    Other,
}

/// What makes calls that allocate. `C` names one of them.
pub(crate) trait Caller<C> {
    /// Makes the call with `bytes` bytes left. Only while the call runs does the hoard leave it
    /// these: whatever else allocates comes before `leave` or after `give_back`, so that its failed
    /// allocation isn't taken for the call's.
    fn outcome(&mut self, call: &C, hoard: &mut Hoard, bytes: usize) -> Outcome;
}

/// Whether the heap is a sanitizer's, as under `rt try --test`: such a process keeps a shadow of its
/// memory at these addresses, and no other has anything there.
pub(crate) fn is_sanitized<R: Files + AllocGlobal>(rt: &R) -> bool {
    match fs::read(rt, "/proc/self/maps") {
        Ok(maps) => maps.starts_with(b"7fff7000-8fff7000 "),
        Err(_) => false,
    }
}

/// Blocks that no other call gets.
#[derive(Drop)]
struct Blocks {
    alloc: Global,
    held: Vec<Vec<u8>>,
}

/// All of the process's memory, except what `leave` leaves.
///
/// The heap keeps a few of the smallest blocks apart when they are freed, and doesn't join them with
/// their neighbours. In the region they would be in the way of larger blocks. So `leave` gives the
/// heap others to keep, `apart`, which lie elsewhere.
#[derive(Drop)]
pub(crate) struct Hoard {
    rest: Blocks,
    apart: Blocks,
    region: Blocks,
    refused: u32,
    has_left: bool,
}

/// More blocks than are ever held.
const BLOCKS: usize = 400_000;

/// The largest blocks that are taken: of all addresses, and of the region. Each is a power of two.
const LARGEST: usize = 0x2000_0000_0000;

const REGION: usize = 0x200_0000;

/// The least of the large blocks.
const LEAST_LARGE: usize = 2048;

/// More halvings than there are between any of these.
const HALVINGS: usize = 64;

/// How many units the largest of the small blocks has.
const MOST_UNITS: usize = 129;

/// Blocks of this size are taken outside the region. A plain heap gives the last of them again once
/// it is given back; a sanitizer's doesn't.
const WIDE: usize = 0x400_0000;

/// The region is made of pieces that the heap takes from its own pages.
const PIECE: usize = 65_536;

const PIECES: usize = 512;

/// The least and the number of the sizes of which the heap keeps freed blocks apart, and how many it
/// keeps of each.
const KEPT_LEAST: usize = 24;

const KEPT_SIZES: usize = 64;

const KEPT_OF_EACH: usize = 7;

/// Blocks of these sizes mark where a run begins, and where a call has answered as it does with ample
/// memory, for `bench/growths.c`, which counts requests. No other block of a hoard has them. They are
/// too large for the heap to keep apart.
const BEGIN: usize = 2047;

const END: usize = 2045;

/// The heap gives memory in multiples of this many bytes.
const UNIT: usize = 16;

/// How many blocks of the stack are used once before a hoard is made: some two MiB, a quarter of what
/// a process has by default. Opening an office takes a little more than one.
const DEPTH: usize = 4096;

/// More runs than any call is made of.
pub(crate) const MOST_RUNS: usize = 100_000;

/// How many runs go through the bytes by units, before these jump to the next room: 16 KiB, more than
/// any call except the program's asks for besides its rooms. A call that asks for more needs more such
/// runs, or requests are skipped, as `bench/growths.py` shows.
pub(crate) const FINE_RUNS: usize = 1024;

/// The bytes of a room for this many items, with what the heap adds.
fn room(items: usize, size: usize) -> usize {
    items.saturating_mul(size).saturating_add(UNIT)
}

/// How many bytes are left after this many jumps: those of no room, of one for the lines of all boats,
/// of one for all entries, of both, of two for the entries, and so on.
fn rooms_left(jumps: usize) -> usize {
    let entries = (jumps / 2).saturating_mul(room(MAX_ENTRIES, size_of::<Entry>()));
    let lines = (jumps % 2).saturating_mul(room(MAX_BOATS, size_of::<BoatLine>()));
    entries.saturating_add(lines)
}

/// How many bytes are left to this run of a call, counted from 0: more by a unit each time, so that no
/// allocation that asks for more than the call has freed is skipped.
///
/// Some calls ask for rooms for all entries that there may be, or for the lines of all boats. At any
/// moment such a call has some of these rooms, and fewer bytes besides than this many runs go through;
/// after them the bytes jump to the next room.
pub(crate) fn bytes_left(run: usize, fine_runs: usize) -> usize {
    let runs = fine_runs.max(1);
    rooms_left(run / runs).saturating_add((run % runs).saturating_mul(UNIT))
}

impl Blocks {
    fn new(alloc: Global) -> Result<Blocks, AllocError> {
        let held = Vec::with_capacity(alloc, BLOCKS)?;
        Ok(Blocks { alloc, held })
    }

    /// Takes one more block, if there is one and the list has room for it.
    fn hold(&mut self, size: usize) -> bool {
        if self.held.len() >= BLOCKS {
            return false;
        }
        match Vec::with_capacity(self.alloc, size) {
            Ok(block) => self.held.push(block).is_ok(),
            Err(_) => false,
        }
    }

    /// Takes `most` blocks of this size, or all that there are.
    fn fill(&mut self, size: usize, most: usize) {
        for _ in 0..most {
            if !self.hold(size) {
                break;
            }
        }
    }

    /// Takes what there is in blocks that the heap joins again when they are freed: all of this
    /// size, then all of half the size, and so on down to the least.
    fn fill_large(&mut self, largest: usize, least: usize) {
        let mut size = largest;
        for _ in 0..HALVINGS {
            if size < least {
                break;
            }
            self.fill(size, BLOCKS);
            size /= 2;
        }
    }

    /// Takes as many blocks as the heap keeps apart, and first those that it keeps.
    fn take_kept(&mut self) {
        let mut size = KEPT_LEAST;
        for _ in 0..KEPT_SIZES {
            self.fill(size, KEPT_OF_EACH);
            size = size.saturating_add(UNIT);
        }
    }

    /// Whether the heap gives the last block again once it is given back. True also if there was at
    /// most one.
    fn gives_again(&mut self) -> bool {
        if self.held.len() < 2 {
            return true;
        }
        let _ = self.held.pop();
        self.hold(WIDE)
    }

    /// Takes the bits that are left.
    fn fill_small(&mut self) {
        let mut size = MOST_UNITS * UNIT - 8;
        for _ in 0..MOST_UNITS {
            self.fill(size, BLOCKS);
            size = size.saturating_sub(UNIT);
        }
    }
}

/// A block of the stack.
type Depth = [u8; 512];

/// Uses the stack `depth` blocks deep, each made of the one above. The stack finds no more addresses
/// beside a hoard, and keeps those that it once had.
fn deepest(depth: usize, above: &Depth) -> u8 {
    let mut block = *above;
    block[0] = block[511];
    if depth == 0 {
        return block[0];
    }
    deepest(depth - 1, &block)
}

impl Hoard {
    /// Takes all memory except a region of the heap. None if the heap can't be exhausted: a
    /// sanitizer's doesn't give the same memory twice, and ends the process if it has no more.
    pub(crate) fn new(alloc: Global) -> Result<Option<Hoard>, AllocError> {
        let depth = deepest(DEPTH, &[0; 512]);
        let mut hoard = Hoard {
            rest: Blocks::new(alloc)?,
            apart: Blocks::new(alloc)?,
            region: Blocks::new(alloc)?,
            refused: 0,
            has_left: true,
        };
        let is_plain = hoard.take_all(depth);
        Ok(if is_plain { Some(hoard) } else { None })
    }

    /// Takes all memory except the region. False if the heap can't be exhausted.
    fn take_all(&mut self, depth: u8) -> bool {
        self.apart.take_kept();
        self.region.fill(PIECE, PIECES);
        // This block lies above the region, so that the heap keeps the region when it is free. Its
        // size makes the compiler keep the walk down the stack.
        self.rest.hold(64 + usize::from(depth));
        self.rest.fill_large(LARGEST, WIDE);
        let is_plain = self.rest.gives_again();
        if is_plain {
            self.rest.fill_large(WIDE, LEAST_LARGE);
            self.rest.fill_small();
        }
        self.give_back();
        is_plain
    }

    /// Leaves this many bytes to the calls that come, until `give_back`. `has_left` is false from then
    /// on if there were fewer.
    pub(crate) fn leave(&mut self, bytes: usize) {
        // what the heap keeps apart from now on are blocks of `apart`, and none of the region
        self.region.take_kept();
        self.apart.held.clear();
        self.region.held.clear();
        // the bytes to leave are held while all else of the region is taken
        let spare: Result<Vec<u8>, AllocError> = Vec::with_capacity(
            self.rest.alloc,
            bytes.saturating_add(BEGIN),
        );
        let is_there = spare.is_ok();
        self.region.fill_large(REGION, LEAST_LARGE);
        self.apart.take_kept();
        self.region.fill_small();
        drop(spare);
        self.has_left = self.region.hold(BEGIN) && is_there && self.has_left;
    }

    /// Whether each run was left as much as it was to have.
    pub(crate) fn has_left(&self) -> bool {
        self.has_left
    }

    /// Makes the region free again.
    pub(crate) fn give_back(&mut self) {
        self.region.held.clear();
    }

    /// Takes in the outcome of a run. None if the call has to be made again, with more bytes. Else the
    /// runs are at their end: whether the call answered as it does with ample memory, was refused at
    /// least once before that, and was left its bytes each time.
    pub(crate) fn verdict(&mut self, outcome: Outcome) -> Option<bool> {
        match outcome {
            Outcome::OutOfMemory if self.has_left => {
                self.refused = self.refused.saturating_add(1);
                None
            }
            Outcome::Ordinary if self.has_left => {
                let was_refused = 0 < self.refused;
                self.refused = 0;
                self.region.hold(END);
                self.give_back();
                Some(was_refused)
            }
            _ => Some(false),
        }
    }

    /// Makes the call with more and more bytes left to it, until it answers as it does with ample
    /// memory: whether it was refused before that, and answered as out of memory each time.
    fn refuses<C, M: Caller<C>>(&mut self, caller: &mut M, call: &C) -> bool {
        for run in 0..MOST_RUNS {
            let outcome = caller.outcome(call, self, bytes_left(run, FINE_RUNS));
            if let Some(passed) = self.verdict(outcome) {
                return passed;
            }
        }
        false
    }

    /// Whether each of these calls is refused first, one after another.
    pub(crate) fn refuses_each<C, M: Caller<C>>(&mut self, caller: &mut M, calls: &[C]) -> bool {
        for call in calls {
            if !self.refuses(caller, call) {
                return false;
            }
        }
        true
    }
}

/// Whether each of these calls is made, with each allocation refused first. With a sanitizer's heap
/// none is made, and that is right; any other heap has to be exhausted.
pub(crate) fn are_refused<R: Files + AllocGlobal, C, M: Caller<C>>(
    rt: &R,
    caller: &mut M,
    calls: &[C],
) -> bool {
    let is_sanitized = is_sanitized(rt);
    match Hoard::new(rt.alloc()) {
        Ok(Some(mut hoard)) => hoard.refuses_each(caller, calls),
        Ok(None) => is_sanitized,
        Err(_) => false,
    }
}
