//! Which commands are refused, and why, and what the others do.
ghost use Rattle.std.specs.Prelude.{◌≡◌, ◌<◌, ◌≤◌, length, nat_eq, nat_le, true, false, not};
ghost use Rattle.std.specs.Prelude.{slice_index_or, IfOk, IfErr, OnOk, OnErr, Some, None, if◌then◌else◌};
ghost use Rattle.regatta_terms.specs.Effects.{AtEnd, TiedWith, AheadOf, ByTime, Marks, Penalises};
ghost use Rattle.regatta_terms.specs.Effects.{Redresses, Clears, Places, Strikes, Decides, Counts};
ghost use Rattle.regatta_terms.specs.Effects.{Enters, InRace, effect};
ghost use Rattle.regatta_terms.specs.declared.sail.Sail.{Sail};
ghost use Rattle.regatta_terms.specs.declared.command.Role.{Role};
ghost use Rattle.regatta_terms.specs.declared.reply.Refusal.TheVariants.{WrongSystem, NotEntered};
ghost use Rattle.regatta_terms.specs.declared.reply.Refusal.TheVariants.{Decided};
ghost use Rattle.regatta_scores.specs.Journal.{entered, order};
ghost use Rattle.regatta_scores.specs.Journal.{is_scored as is_scored_in, held as held_in};
ghost use Rattle.regatta_scores.specs.Order.{is_empty, stands_in};
ghost use Rattle.regatta_scores.specs.Sheet.{boats, nothing_held};
ghost use Rattle.regatta_scores.specs.SheetFacts.{Allows, IsPlaced, IsUnplaced};
ghost use Rattle.regatta_scores.specs.declared.sheet.Change.TheVariants.{Hold};
ghost use Rattle.regatta_board.specs.KeptJournal.{kept_of, number as number_of};
ghost use Rattle.regatta_board.specs.LedgerFacts.{Acts};
ghost use Rattle.regatta_board.specs.Refusals.{limits, refusal, place_refusal};
ghost use Rattle.regatta_board.specs.Refusals.{place_by_refusal, is_entered, Unless};
ghost use Rattle.regatta_board.specs.Refusals.{is_placed as is_placed_in};
ghost use Rattle.regatta_board.specs.Refusals as refusals;
ghost use Rattle.regatta_board.specs.Step.{sheet_in, IsAct, held_in as held_on};

use crate::act::{Act, Step};
use crate::held::{is_decided, penalties, with_code, with_penalty, with_redress};
use crate::ledger::Ledger;
use regatta_scores::{Change, Held, NOTHING_HELD};
use regatta_terms::{
    Code, Command, Entry, MAX_BOATS, MAX_ENTRIES, MAX_PENALTIES, PenaltyKind, RaceNo, Redress,
    Refusal, Role, Sail, Seconds, may,
};

impl Ledger {
    /// The boat's number, if she is entered.
    fn number(&self, sail: Sail) -> Result<u16, Refusal>
        ensures found { IfOk result (λ number. (is_entered self.now.entries sail ≡ true)
            × (number ≡ number_of self.now.entries sail)
            × (number < length (entered self.now.entries))) }
        ensures out { OnErr result (is_entered self.now.entries sail ≡ false) }
        ensures refused { IfErr result (λ why. why ≡ NotEntered) }
    {
        match self.kept().number(sail) {
            Some(number) => Ok(number),
            None => Err(Refusal::NotEntered),
        }
    }

    fn is_full(&self) -> bool
        ensures { result ≡ nat_le limits.boats (length (entered self.now.entries)) }
    {
        self.kept().boats() >= MAX_BOATS
    }

    /// Whether the boat with this number is in the race's finishing order.
    fn is_placed(&self, race: RaceNo, number: u16) -> bool
        requires { number < length (entered self.now.entries) }
        ensures value { (boat : Sail) → number ≡ number_of self.now.entries boat
            → result ≡ is_placed_in self.now.rules self.now.entries race boat }
        ensures sheet { result ≡ stands_in nat_eq number
            (sheet_in (kept_of self.now.rules self.now.entries) race).order }
        ensures on { number < boats (sheet_in (kept_of self.now.rules self.now.entries) race) }
    {
        self.kept().placed(race, number)
    }

    /// The code, penalties and redress of the boat with this number in the race.
    fn held(&self, race: RaceNo, number: u16) -> Held
        requires { number < length (entered self.now.entries) }
        ensures value { (boat : Sail) → number ≡ number_of self.now.entries boat
            → result ≡ held_in self.now.entries race boat }
        ensures sheet { result ≡ slice_index_or
            (sheet_in (kept_of self.now.rules self.now.entries) race).held number nothing_held }
        ensures on { number < boats (sheet_in (kept_of self.now.rules self.now.entries) race) }
        ensures few { (result.zfp ≤ MAX_PENALTIES) × (result.scp ≤ MAX_PENALTIES) }
    {
        self.kept().held(race, number)
    }

    fn is_scored(&self, race: RaceNo) -> bool
        ensures { result ≡ is_scored_in self.now.entries race }
    {
        self.kept().is_scored(race)
    }

    /// Whether the race's finishing order is empty.
    fn has_no_finisher(&self, race: RaceNo) -> bool
        ensures { result ≡ is_empty (order self.now.rules self.now.entries race) }
    {
        self.kept().has_no_finisher(race)
    }

    /// Refuses a place by another system than that of the series, corrected times or not (RRS A3).
    fn of_system(&self, handicap: bool) -> Result<(), Refusal>
        ensures ours { OnOk result (self.now.rules.handicap ≡ handicap) }
        ensures other { OnErr result (self.now.rules.handicap ≡ not handicap) }
        ensures refused { IfErr result (λ why. why ≡ WrongSystem) }
    {
        if self.rules.handicap() == handicap {
            Ok(())
        } else {
            Err(Refusal::WrongSystem)
        }
    }

    /// The number of a boat that is entered, and isn't in the race's finishing order.
    fn unplaced(&self, race: RaceNo, sail: Sail) -> Result<u16, Refusal>
        ensures { Unless (place_refusal self.now.rules self.now.entries race sail AtEnd)
            (λ boat. (boat ≡ number_of self.now.entries sail)
            × IsUnplaced (sheet_in (kept_of self.now.rules self.now.entries) race) boat) result }
    {
        let boat = self.number(sail)?;
        if self.is_placed(race, boat) {
            return Err(Refusal::AlreadyPlaced);
        }
        Ok(boat)
    }

    /// The numbers of two boats that are entered. The other is in the race's finishing order, and
    /// the first isn't.
    fn unplaced_by(&self, race: RaceNo, sail: Sail, other: Sail) -> Result<(u16, u16), Refusal>
        ensures { Unless (place_by_refusal self.now.rules self.now.entries race sail other)
            (λ boats. (boats ≡ (number_of self.now.entries sail, number_of self.now.entries other))
            × IsUnplaced (sheet_in (kept_of self.now.rules self.now.entries) race) boats.0
            × IsPlaced (sheet_in (kept_of self.now.rules self.now.entries) race) boats.1) result }
    {
        let boat = self.number(sail)?;
        let by = self.number(other)?;
        if self.is_placed(race, boat) {
            return Err(Refusal::AlreadyPlaced);
        }
        if !self.is_placed(race, by) {
            return Err(Refusal::NotPlaced);
        }
        Ok((boat, by))
    }

    /// The number of a boat that is entered, and what she holds in the race: no decision of the
    /// protest committee.
    fn undecided(&self, race: RaceNo, sail: Sail) -> Result<(u16, Held), Refusal>
        ensures entered { OnOk result (is_entered self.now.entries sail ≡ true) }
        ensures boat { IfOk result (λ found. found.0 ≡ number_of self.now.entries sail) }
        ensures held { IfOk result (λ found. found.1 ≡ held_in self.now.entries race sail) }
        ensures free { OnOk result
            (refusals.is_decided (held_in self.now.entries race sail) ≡ false) }
        ensures sheet { IfOk result (λ found. found.1
            ≡ held_on (kept_of self.now.rules self.now.entries) race sail) }
        ensures few { IfOk result (λ found. Allows
            (sheet_in (kept_of self.now.rules self.now.entries) race) (Hold found.0 found.1)) }
        ensures refused { IfErr result (λ why. (if not (is_entered self.now.entries sail)
            then Some NotEntered
            else if refusals.is_decided (held_in self.now.entries race sail) then Some Decided
            else None) ≡ Some why) }
    {
        let boat = self.number(sail)?;
        let held = self.held(race, boat);
        if is_decided(&held) {
            return Err(Refusal::Decided);
        }
        Ok((boat, held))
    }

    fn enter(&self, sail: Sail) -> Result<Act, Refusal>
        ensures { (role : Role) → Acts self.now.rules self.now.entries role (Enters sail) result }
    {
        match self.number(sail) {
            Ok(_) => Err(Refusal::AlreadyEntered),
            Err(_) if self.is_full() => Err(Refusal::EntryFull),
            Err(_) => Ok(Act {
                boat: Some(self.kept().entry_list().next_number()),
                step: Step::Enter { sail },
            }),
        }
    }

    fn finish(&self, race: RaceNo, sail: Sail) -> Result<Act, Refusal>
        ensures { (role : Role) → Acts self.now.rules self.now.entries role
            (InRace race (Places sail AtEnd)) result }
    {
        self.of_system(false)?;
        let boat = self.unplaced(race, sail)?;
        Ok(Act::on_sheet(race, boat, Change::Last { boat }))
    }

    fn tie(&self, race: RaceNo, sail: Sail, other: Sail) -> Result<Act, Refusal>
        ensures { (role : Role) → Acts self.now.rules self.now.entries role
            (InRace race (Places sail (TiedWith other))) result }
    {
        self.of_system(false)?;
        let (boat, other) = self.unplaced_by(race, sail, other)?;
        Ok(Act::on_sheet(race, boat, Change::Join { boat, other }))
    }

    fn before(&self, race: RaceNo, sail: Sail, other: Sail) -> Result<Act, Refusal>
        ensures { (role : Role) → Acts self.now.rules self.now.entries role
            (InRace race (Places sail (AheadOf other))) result }
    {
        self.of_system(false)?;
        let (boat, other) = self.unplaced_by(race, sail, other)?;
        Ok(Act::on_sheet(race, boat, Change::Ahead { boat, other }))
    }

    fn time(&self, race: RaceNo, sail: Sail, seconds: Seconds) -> Result<Act, Refusal>
        ensures { (role : Role) → Acts self.now.rules self.now.entries role
            (InRace race (Places sail (ByTime seconds))) result }
    {
        self.of_system(true)?;
        let boat = self.unplaced(race, sail)?;
        Ok(Act::on_sheet(race, boat, Change::Timed { boat, seconds }))
    }

    fn strike(&self, race: RaceNo, sail: Sail) -> Result<Act, Refusal>
        ensures { (role : Role) → Acts self.now.rules self.now.entries role
            (InRace race (Strikes sail)) result }
    {
        let boat = self.number(sail)?;
        if !self.is_placed(race, boat) {
            return Err(Refusal::NotPlaced);
        }
        Ok(Act::on_sheet(race, boat, Change::Out { boat }))
    }

    fn mark(&self, race: RaceNo, sail: Sail, code: Code) -> Result<Act, Refusal>
        ensures { (role : Role) → Acts self.now.rules self.now.entries role
            (InRace race (Decides sail (Marks code))) result }
    {
        let (boat, held) = self.undecided(race, sail)?;
        let held = with_code(held, code);
        Ok(Act::on_sheet(race, boat, Change::Hold { boat, held }))
    }

    fn penalise(&self, race: RaceNo, sail: Sail, kind: PenaltyKind) -> Result<Act, Refusal>
        ensures { (role : Role) → Acts self.now.rules self.now.entries role
            (InRace race (Decides sail (Penalises kind))) result }
    {
        let (boat, held) = self.undecided(race, sail)?;
        if penalties(kind, &held) >= MAX_PENALTIES {
            return Err(Refusal::PenaltyLimit);
        }
        let held = with_penalty(held, kind);
        Ok(Act::on_sheet(race, boat, Change::Hold { boat, held }))
    }

    fn redress(&self, race: RaceNo, sail: Sail, redress: Redress) -> Result<Act, Refusal>
        ensures { (role : Role) → Acts self.now.rules self.now.entries role
            (InRace race (Decides sail (Redresses redress))) result }
    {
        let (boat, held) = self.undecided(race, sail)?;
        let held = with_redress(held, redress);
        Ok(Act::on_sheet(race, boat, Change::Hold { boat, held }))
    }

    fn clear(&self, role: Role, race: RaceNo, sail: Sail) -> Result<Act, Refusal>
        ensures { Acts self.now.rules self.now.entries role
            (InRace race (Decides sail Clears)) result }
    {
        let boat = self.number(sail)?;
        let held = self.held(race, boat);
        if is_decided(&held) && role != Role::Jury {
            return Err(Refusal::Decided);
        }
        if held.is_nothing() {
            return Err(Refusal::NothingToClear);
        }
        let held = NOTHING_HELD;
        Ok(Act::on_sheet(race, boat, Change::Hold { boat, held }))
    }

    fn score(&self, race: RaceNo) -> Result<Act, Refusal>
        ensures { (role : Role) → Acts self.now.rules self.now.entries role
            (InRace race (Counts true)) result }
    {
        if self.is_scored(race) {
            return Err(Refusal::AlreadyScored);
        }
        if self.has_no_finisher(race) {
            return Err(Refusal::NoFinisher);
        }
        Ok(Act::of_race(race, true))
    }

    fn unscore(&self, race: RaceNo) -> Result<Act, Refusal>
        ensures { (role : Role) → Acts self.now.rules self.now.entries role
            (InRace race (Counts false)) result }
    {
        if !self.is_scored(race) {
            return Err(Refusal::NotScored);
        }
        Ok(Act::of_race(race, false))
    }

    /// What a command that the role may give does, or why it is refused.
    fn command_act(&self, role: Role, command: Command) -> Result<Act, Refusal>
        ensures { Acts self.now.rules self.now.entries role (effect command) result }
    {
        match command {
            Command::Enter { sail } => self.enter(sail),
            Command::Finish { race, sail } => self.finish(race, sail),
            Command::Tie { race, sail, other } => self.tie(race, sail, other),
            Command::Before { race, sail, other } => self.before(race, sail, other),
            Command::Time {
                race,
                sail,
                seconds,
            } => self.time(race, sail, seconds),
            Command::Strike { race, sail } => self.strike(race, sail),
            Command::Mark { race, sail, code } => self.mark(race, sail, code),
            Command::Penalise { race, sail, kind } => self.penalise(race, sail, kind),
            Command::Redress {
                race,
                sail,
                redress,
            } => self.redress(race, sail, redress),
            Command::Clear { race, sail } => self.clear(role, race, sail),
            Command::Score { race } => self.score(race),
            Command::Unscore { race } => self.unscore(race),
        }
    }

    /// What the entry does, or why it is refused.
    pub(crate) fn act(&self, entry: &Entry) -> Result<Act, Refusal>
        ensures { Unless (refusal limits self.now.rules self.now.entries entry.now)
            (IsAct (kept_of self.now.rules self.now.entries) (effect entry.now.command)) result }
    {
        if self.len() >= MAX_ENTRIES {
            return Err(Refusal::JournalFull);
        }
        let last = self.last_of(entry.seat());
        if entry.nth() <= last {
            return Err(Refusal::OldNumber { last });
        }
        if !may(entry.role(), &entry.command()) {
            return Err(Refusal::NotYours);
        }
        self.command_act(entry.role(), entry.command())
    }
}
