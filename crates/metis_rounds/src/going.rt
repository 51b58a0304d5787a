//! How far a round has come.
ghost use Rattle.std.specs.Prelude.{◌≡◌, ◌<◌, ◌≤◌, ◌+◌, ◌==◌, ◌||◌, ◌&&◌, ◌⊎◌, not, ℕ, List, [], IsTrue, IsFalse, IfNone, IfOk, IfSome, OnOk, drop, length, slice_set};
ghost use Rattle.std.specs.List.{list_any, slice_index_or};
ghost use Rattle.metis_ids.specs.Terms.{has};
ghost use Rattle.metis_ids.specs.declared.events.Event.{Event};
ghost use Rattle.metis_ids.specs.declared.events.Event.TheVariants.{At, End};
ghost use Rattle.metis_lines.specs.Terms.{LifeLines, graph_over, is_among, is_end, same_event, step_count};
ghost use Rattle.metis_rounds.specs.Terms.{Empties, HasAllBefore, HasGrown, HasLine, HasNoLines, HasOwnLine, HasPlaces, HasReturns, HasTables, HasUses, IsGoing, IsMissing, IsUse, Rows, WaitsFor, all_taken, has_row, is_on, is_taken, next_of, row_at, taken_of, use_at, use_event, uses_at, with_next};

use crate::event_table::EventTable;
use crate::returns::holder_event;
use crate::tables::Tables;
use crate::uses::Uses;
use metis_events::step_count;
use metis_ids::{Event, LineIx, NoMemory, PairIx, StepIx};
use metis_lines::OverLines;
use std::alloc::Global;
use std::mem;

/// How many events of each line are taken, and what each line waits for.
#[derive(Drop)]
pub struct Going {
    /// How many events of each line are taken.
    pub taken: Vec<u32>,
    /// How many of the slots that the next station of each line takes were found there.
    pub met: Vec<usize>,
    /// How many of the returns into the next event of each line were found taken.
    pub left: Vec<usize>,
    /// For each event those that wait for it.
    pub waiting: EventTable,
    /// The lines that are to be looked at.
    pub work: Vec<LineIx>,
}

// Whether the event is taken.
pub fn is_taken(taken: &[u32], e: Event) -> bool
    ensures { result ≡ is_taken taken.now e }
{
    match e {
        Event::At(line, step) => match taken.get(line.0 as usize) {
            Some(count) => step.0 < *count,
            None => false,
        },
        Event::End => false,
    }
}

// The number of the line among these.
fn count_of(counts: &[u32], line: LineIx) -> u32
    requires { line < length counts.now }
    ensures { result ≡ taken_of counts.now line }
{
    counts[line.0 as usize]
}

// The place of the line among these.
fn place_of(places: &[usize], line: LineIx) -> usize
    requires { line < length places.now }
    ensures { result ≡ taken_of places.now line }
{
    places[line.0 as usize]
}

// Appends the lines of these events.
fn add_lines(work: &mut Vec<LineIx>, events: &[Event]) -> Result<(), NoMemory>
    ensures { OnOk result ((l : ℕ) → has work.new.items l ≡ (has work.old.items l || list_any (is_on l) events.now)) }
{
    for event in events {
        if let Event::At(line, _) = event {
            work.push(*line)?;
        }
    }
    Ok(())
}

// The first place, from this one on, of a row whose event is not taken.
fn first_left(row: &[Event], taken: &[u32], from: usize) -> usize
    requires { from ≤ length row.now }
    ensures few { result ≤ length row.now }
    ensures seen { (k : ℕ) → from ≤ k → k < result → IsTrue (is_taken taken.now (slice_index_or row.now k End)) }
    ensures left { result < length row.now → IsFalse (is_taken taken.now (slice_index_or row.now result End)) }
{
    let mut place = from;
    while place < row.len() && is_taken(taken, row[place]) {
        place += 1;
    }
    place
}

// The first place, from this one on, of slots that are used, where the slot is not at its pair.
fn first_missing(over: &OverLines<'_>, slots: &[(PairIx, u32)], taken: &[u32], from: usize) -> usize
    requires from { from ≤ length slots.now }
    requires there { (k : ℕ) → k < length slots.now → IsUse over.now.lines (use_at slots.now k) }
    ensures few { result ≤ length slots.now }
    ensures seen { (k : ℕ) → from ≤ k → k < result → IsTrue (is_taken taken.now (use_event over.now.lines (use_at slots.now k))) }
    ensures left { result < length slots.now → IsFalse (is_taken taken.now (use_event over.now.lines (use_at slots.now result))) }
{
    let mut place = from;
    while place < slots.len()
        && is_taken(taken, holder_event(over, slots[place].0, slots[place].1))
    {
        place += 1;
    }
    place
}

// The slot at the first place, where there is one, or else the return at the second.
fn missing(
    over: &OverLines<'_>,
    slots: &[(PairIx, u32)],
    met: usize,
    row: &[Event],
    left: usize,
) -> Option<Event>
    requires there { (k : ℕ) → k < length slots.now → IsUse over.now.lines (use_at slots.now k) }
    ensures some { IfSome result (IsMissing over.now.lines slots.now met row.now left) }
    ensures none { IfNone result ((length slots.now ≤ met) × (length row.now ≤ left)) }
{
    if met < slots.len() {
        return Some(holder_event(over, slots[met].0, slots[met].1));
    }
    if left < row.len() {
        return Some(row[left]);
    }
    None
}

// The slots that a station of the line takes; none behind its last one.
pub fn slots_at<'a>(
    over: &OverLines<'_>,
    uses: &'a Uses,
    line: LineIx,
    step: StepIx,
) -> &'a [(PairIx, u32)]
    requires uses { HasUses over.now.universe over.now.support uses.now }
    requires line { line < length over.now.lines.lines }
    ensures uses { result.now ≡ uses_at over.now.universe over.now.support over.now.lines line step }
    ensures there { (k : ℕ) → k < length result.now → IsUse over.now.lines (use_at result.now k) }
{
    over.keeps_invariant();
    if step.0 <= over.last(line).0 {
        uses.of_pair(over.station(line, step))
    } else {
        &[]
    }
}

impl Going {
    /// No line.
    pub fn empty(alloc: Global) -> Going
        ensures { HasNoLines result }
    {
        Going {
            taken: Vec::new(alloc),
            met: Vec::new(alloc),
            left: Vec::new(alloc),
            waiting: EventTable::new(alloc),
            work: Vec::new(alloc),
        }
    }

    /// Adds the lines where there are none. Nothing is taken, and each line is to be looked at.
    pub fn begin(&mut self, alloc: Global, over: &OverLines<'_>) -> Result<(), NoMemory>
        requires { HasNoLines self.old }
        ensures { OnOk result ((t : Rows) → IsGoing over.now.universe over.now.support over.now.lines t self.new []) }
    {
        for number in 0..over.count() {
            let line = LineIx(number);
            self.waiting.add_line(alloc, step_count(over, line))?;
            self.taken.push(0)?;
            self.met.push(0)?;
            self.left.push(0)?;
            self.work.push(line)?;
        }
        Ok(())
    }

    /// Takes what can be taken, until each line waits for something or has no event left.
    pub fn go_on(
        &mut self,
        alloc: Global,
        over: &OverLines<'_>,
        tables: &Tables,
    ) -> Result<(), NoMemory>
        requires tables { HasTables over.now tables.now }
        requires going { IsGoing over.now.universe over.now.support over.now.lines tables.now.returns self.old [] }
        ensures going { OnOk result (IsGoing over.now.universe over.now.support over.now.lines tables.now.returns self.new []) }
        ensures still { OnOk result (self.new.work.items ≡ []) }
        ensures kept { OnOk result ((l : ℕ) → taken_of self.old.taken.items l ≤ taken_of self.new.taken.items l) }
    {
        while !self.work.is_empty() {
            let work = mem::replace(&mut self.work, Vec::new(alloc));
            self.try_lines(alloc, over, tables, &work)?;
        }
        Ok(())
    }

    /// Goes on with a line of its own for a pair, which is the last line now: what is taken stays so, and of the new line as many
    /// events are as of the line that held the pair. That line, the new one, and what waited for the pair are to be looked at.
    pub fn with_own_line(
        &mut self,
        alloc: Global,
        over: &OverLines<'_>,
        returns: &EventTable,
        held: (LineIx, StepIx),
    ) -> Result<(), NoMemory>
        requires going { (x : LifeLines) × (p : ℕ) × (t : Rows) × HasOwnLine over.now.universe over.now.support x over.now.lines p held × HasGrown t returns.now (At held.0 (held.1 + 1)) × IsGoing over.now.universe over.now.support x t self.old [] }
        ensures going { OnOk result (IsGoing over.now.universe over.now.support over.now.lines returns.now self.new []) }
        ensures kept { OnOk result ((l : ℕ) → l < length self.old.taken.items → taken_of self.new.taken.items l ≡ taken_of self.old.taken.items l) }
    {
        over.keeps_invariant();
        let (line, station) = held;
        let new = LineIx(over.count() - 1);
        let steps = station.0 + 2;
        let reached = self.taken[line.0 as usize];
        self.waiting.add_line(alloc, steps)?;
        self.taken.push(reached.min(steps))?;
        self.met.push(0)?;
        self.left.push(0)?;
        self.left[line.0 as usize] = 0;
        let woken = self.waiting.take(alloc, Event::At(line, station));
        self.work.push(line)?;
        self.work.push(new)?;
        add_lines(&mut self.work, &woken)
    }

    // Looks at each of these lines.
    fn try_lines(
        &mut self,
        alloc: Global,
        over: &OverLines<'_>,
        tables: &Tables,
        work: &[LineIx],
    ) -> Result<(), NoMemory>
        requires tables { HasTables over.now tables.now }
        requires going { IsGoing over.now.universe over.now.support over.now.lines tables.now.returns self.old work.now }
        requires empty { self.old.work.items ≡ [] }
        ensures going { OnOk result (IsGoing over.now.universe over.now.support over.now.lines tables.now.returns self.new []) }
        ensures more { OnOk result (((self.new.work.items ≡ []) × (self.new.taken.items ≡ self.old.taken.items)) ⊎ (all_taken self.old.taken.items < all_taken self.new.taken.items)) }
        ensures kept { OnOk result ((l : ℕ) → taken_of self.old.taken.items l ≤ taken_of self.new.taken.items l) }
    {
        for place in 0..work.len() {
            self.try_line(alloc, over, tables, work, place)?;
        }
        Ok(())
    }

    // Takes the next event of the line at this place, or notes what it waits for.
    fn try_line(
        &mut self,
        alloc: Global,
        over: &OverLines<'_>,
        tables: &Tables,
        work: &[LineIx],
        place: usize,
    ) -> Result<(), NoMemory>
        requires tables { HasTables over.now tables.now }
        requires place { place < length work.now }
        requires going { IsGoing over.now.universe over.now.support over.now.lines tables.now.returns self.old (drop place work.now) }
        ensures going { OnOk result (IsGoing over.now.universe over.now.support over.now.lines tables.now.returns self.new (drop (place + 1) work.now)) }
        ensures more { OnOk result ((self.new.work.items ≡ self.old.work.items) × (self.new.taken.items ≡ self.old.taken.items) ⊎ (all_taken self.old.taken.items < all_taken self.new.taken.items)) }
        ensures kept { OnOk result ((l : ℕ) → taken_of self.old.taken.items l ≤ taken_of self.new.taken.items l) }
    {
        over.keeps_invariant();
        let line = work[place];
        if count_of(&self.taken, line) == step_count(over, line) {
            return Ok(());
        }
        match self.waited_for(over, tables, line) {
            Some(event) => self.wait(line, event),
            None => self.take(alloc, line),
        }
    }

    // What the next event of the line waits for, if anything.
    fn waited_for(&mut self, over: &OverLines<'_>, tables: &Tables, line: LineIx) -> Option<Event>
        requires tables { HasTables over.now tables.now }
        requires line { line < length over.now.lines.lines }
        requires next { taken_of self.old.taken.items line < step_count (graph_over over.now) line }
        requires places { HasPlaces over.now.universe over.now.support over.now.lines tables.now.returns self.old }
        ensures places { HasPlaces over.now.universe over.now.support over.now.lines tables.now.returns self.new }
        ensures same_taken { self.new.taken.items ≡ self.old.taken.items }
        ensures same_waiting { self.new.waiting ≡ self.old.waiting }
        ensures same_work { self.new.work.items ≡ self.old.work.items }
        ensures some { IfSome result (WaitsFor (graph_over over.now) self.old.taken.items (next_of self.old.taken.items line)) }
        ensures none { IfNone result (HasAllBefore (graph_over over.now) self.old.taken.items (next_of self.old.taken.items line)) }
    {
        over.keeps_invariant();
        let step = StepIx(count_of(&self.taken, line));
        let slots = slots_at(over, &tables.uses, line, step);
        let met = first_missing(over, slots, &self.taken, place_of(&self.met, line));
        self.met[line.0 as usize] = met;
        let row = tables.returns.row(Event::At(line, step));
        let left = first_left(row, &self.taken, place_of(&self.left, line));
        self.left[line.0 as usize] = left;
        missing(over, slots, met, row, left)
    }

    // The next event of the line waits for this one.
    fn wait(&mut self, line: LineIx, event: Event) -> Result<(), NoMemory>
        requires line { line < length self.old.taken.items }
        requires row { IsFalse (is_end event) → IsTrue (has_row self.old.waiting event) }
        ensures same_taken { OnOk result (self.new.taken.items ≡ self.old.taken.items) }
        ensures same_met { OnOk result (self.new.met.items ≡ self.old.met.items) }
        ensures same_left { OnOk result (self.new.left.items ≡ self.old.left.items) }
        ensures same_work { OnOk result (self.new.work.items ≡ self.old.work.items) }
        ensures count { OnOk result (length self.new.waiting ≡ length self.old.waiting) }
        ensures has { OnOk result ((f : Event) → has_row self.new.waiting f ≡ has_row self.old.waiting f) }
        ensures waiting { OnOk result ((e f : Event) → is_among (row_at self.new.waiting e) f ≡ (is_among (row_at self.old.waiting e) f || (same_event e event && not (is_end event) && same_event (next_of self.old.taken.items line) f))) }
    {
        match event {
            Event::At(_, _) => {
                let next = Event::At(line, StepIx(count_of(&self.taken, line)));
                self.waiting.push(event, next)
            }
            Event::End => Ok(()),
        }
    }

    // Takes the next event of the line, and looks again at what waited for it.
    fn take(&mut self, alloc: Global, line: LineIx) -> Result<(), NoMemory>
        requires line { HasLine self.old line }
        requires few { taken_of self.old.taken.items line < 65 }
        requires row { IsTrue (has_row self.old.waiting (next_of self.old.taken.items line)) }
        ensures taken { OnOk result (self.new.taken.items ≡ with_next self.old.taken.items line) }
        ensures met { OnOk result (self.new.met.items ≡ slice_set self.old.met.items line 0) }
        ensures left { OnOk result (self.new.left.items ≡ slice_set self.old.left.items line 0) }
        ensures waiting { OnOk result (Empties (next_of self.old.taken.items line) self.old.waiting self.new.waiting) }
        ensures work { OnOk result ((l : ℕ) → has self.new.work.items l ≡ (has self.old.work.items l || (line == l) || list_any (is_on l) (row_at self.old.waiting (next_of self.old.taken.items line)))) }
    {
        let at = line.0 as usize;
        let event = Event::At(line, StepIx(self.taken[at]));
        self.taken[at] += 1;
        self.met[at] = 0;
        self.left[at] = 0;
        let woken = self.waiting.take(alloc, event);
        self.work.push(line)?;
        add_lines(&mut self.work, &woken)
    }
}
