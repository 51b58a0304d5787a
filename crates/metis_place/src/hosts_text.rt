//! Reads the text of hosts.
ghost use Rattle.std.specs.Prelude.{◌≡◌, ◌≤◌, IfOk, length, map};
ghost use Rattle.std.specs.List.{All};
ghost use Rattle.metis_tokens.specs.Terms.{TakesAs, last_piece, made, whole_lines};
ghost use Rattle.metis_universe.specs.Terms.{type_count};
ghost use Rattle.metis_place.specs.Terms.{IsEntry, IsHostsFault, IsTextOf, ReadsHosts, end_from, entries_of, entry_in, hosts_in, hosts_of, is_last, lines_from, nothing, number_of, sizes_of, text_of, with_entry, with_host, with_line, with_size, with_tokens, with_words};
ghost use Rattle.metis_ids.specs.Terms.{IfFault};
ghost use Rattle.metis_place.specs.declared.hosts_fault.HFault.TheVariants.{NoMemory};

use crate::hosts::Hosts;
use crate::hosts_fault::{HFault, fault_at};
use indexmap::IndexMap;
use metis_ids::TypeIx;
use metis_tokens::bytes::is;
use metis_tokens::{Flaw, Lined, number_in, pieces_of, read_own, tokens_of};
use metis_universe::{Universe, name_in};
use std::alloc::{AllocError, Global};
use std::marker::Model;

/// What the lines so far say.
#[derive(Drop)]
struct Seen {
    /// The room of each host, by its name.
    rooms: IndexMap<String, u32>,
    /// The size of each type whose line was read, by its name.
    sizes: IndexMap<String, u32>,
}

impl Model for Seen {
    ghost use Rattle.metis_place.specs.Entries.{entries_of};
    ghost use Rattle.metis_place.specs.HostsText.{SeenLines, seen_lines};

    ghost Value = { SeenLines };

    ghost view = { λ s. seen_lines (entries_of s.rooms.entries) (entries_of s.sizes.entries) };
}

impl Seen {
    fn new(alloc: Global) -> Seen
        ensures { result ≡ nothing }
    {
        Seen {
            rooms: IndexMap::new(alloc),
            sizes: IndexMap::new(alloc),
        }
    }

    fn take_tokens(
        &mut self,
        alloc: Global,
        u: &Universe,
        number: u32,
        tokens: &[&[u8]],
    ) -> Result<(), HFault>
        ensures { TakesAs NoMemory result self.new (with_tokens u.now number self.old (map (λ t. t.now) tokens.now)) }
    {
        match tokens {
            [word, name, value] => self.take_words(alloc, u, number, word, entry_in(name, value)),
            _ => Err(HFault::Line(number)),
        }
    }

    // A host stands before all sizes, and a size behind a host.
    fn take_words(
        &mut self,
        alloc: Global,
        u: &Universe,
        number: u32,
        word: &[u8],
        said: Result<(&str, u32), Flaw>,
    ) -> Result<(), HFault>
        ensures { TakesAs NoMemory result self.new (with_words u.now number self.old word.now (made (λ e. (e.0.now, e.1)) said.entry)) }
    {
        if is(word, "host") && self.sizes.is_empty() {
            self.take_host(alloc, number, said)
        } else if is(word, "size") && !self.rooms.is_empty() {
            self.take_size(alloc, u, number, said)
        } else {
            Err(HFault::Line(number))
        }
    }

    fn take_host(
        &mut self,
        alloc: Global,
        number: u32,
        said: Result<(&str, u32), Flaw>,
    ) -> Result<(), HFault>
        ensures { TakesAs NoMemory result self.new (with_host number self.old (made (λ e. (e.0.now, e.1)) said.entry)) }
    {
        match said {
            Ok((name, room)) => add_entry(alloc, &mut self.rooms, number, name, room),
            Err(flaw) => Err(fault_at(number, flaw)),
        }
    }

    // The type has to be there before its size is kept.
    fn take_size(
        &mut self,
        alloc: Global,
        u: &Universe,
        number: u32,
        said: Result<(&str, u32), Flaw>,
    ) -> Result<(), HFault>
        ensures { TakesAs NoMemory result self.new (with_size u.now number self.old (made (λ e. (e.0.now, e.1)) said.entry)) }
    {
        match said {
            Ok((name, size)) => {
                if u.type_named(name).is_none() {
                    return Err(HFault::Name(number));
                }
                add_entry(alloc, &mut self.sizes, number, name, size)
            }
            Err(flaw) => Err(fault_at(number, flaw)),
        }
    }

    // The hosts, and the size of each type.
    fn hosts(self, alloc: Global, u: &Universe) -> Result<Hosts, AllocError>
        requires { All IsEntry self.hosts }
        ensures { IfOk result (λ h. h ≡ hosts_of u.now self) }
    {
        let sizes = all_sizes(alloc, u, &self.sizes)?;
        Ok(Hosts {
            rooms: rooms_of(alloc, self.rooms)?,
            sizes,
        })
    }
}

impl Lined for Seen {
    ghost use Rattle.metis_place.specs.Terms.{is_last, with_line};
    ghost use Rattle.metis_place.specs.declared.hosts_fault.HFault.TheVariants.{Line, NoMemory, Short};

    type Fault = HFault;

    ghost ends = { is_last };

    ghost taken = { with_line };

    ghost of_line = { Line };

    ghost short = { Short };

    ghost memory = { NoMemory };

    // The last line stands behind a host.
    fn ends_with(&self, line: &[u8]) -> bool {
        is(line, "end") && !self.rooms.is_empty()
    }

    fn take(
        &mut self,
        alloc: Global,
        u: &Universe,
        number: u32,
        line: &[u8],
    ) -> Result<(), HFault> {
        let tokens = tokens_of(alloc, line)?;
        self.take_tokens(alloc, u, number, &tokens)
    }

    fn line_fault(number: u32) -> HFault {
        HFault::Line(number)
    }

    fn short_fault() -> HFault {
        HFault::Short
    }
}

// The name and the number that two tokens are.
fn entry_in<'a>(name: &'a [u8], number: &[u8]) -> Result<(&'a str, u32), Flaw>
    ensures { made (λ e. (e.0.now, e.1)) result ≡ entry_in name.now number.now }
{
    match (name_in(name), number_in(number)) {
        (Some(name), Ok(value)) => Ok((name, value)),
        (Some(_), Err(flaw)) => Err(flaw),
        (None, _) => Err(Flaw::Form),
    }
}

// Adds a name, which stands on no earlier line of its kind.
fn add_entry(
    alloc: Global,
    entries: &mut IndexMap<String, u32>,
    number: u32,
    name: &str,
    value: u32,
) -> Result<(), HFault>
    ensures { TakesAs NoMemory result (entries_of entries.new.entries) (with_entry number (entries_of entries.old.entries) (name.now, value)) }
{
    if entries.contains_key(name) {
        return Err(HFault::Twice(number));
    }
    entries.insert(String::from_str(alloc, name)?, value)?;
    Ok(())
}

// The size of the type of this name: that of its line, or 1.
fn size_named(sizes: &IndexMap<String, u32>, name: &str) -> u32
    ensures { result ≡ number_of (entries_of sizes.now.entries) name.now }
{
    sizes.get(name).copied().unwrap_or(1)
}

// The hosts and their rooms in order.
fn rooms_of(alloc: Global, rooms: IndexMap<String, u32>) -> Result<Vec<(String, u32)>, AllocError>
    ensures { IfOk result (λ listed. listed.items ≡ rooms.entries) }
{
    rooms.into_iter().collect(alloc)
}

// The size of each type.
fn all_sizes(
    alloc: Global,
    u: &Universe,
    sizes: &IndexMap<String, u32>,
) -> Result<Vec<u32>, AllocError>
    ensures { IfOk result (λ all. all.items ≡ sizes_of u.now (entries_of sizes.now.entries)) }
{
    let mut all = Vec::new(alloc);
    for kind in 0..u.types() {
        all.push(size_named(sizes, u.type_name(TypeIx(kind))))?;
    }
    Ok(all)
}

/// The hosts and the sizes that the bytes say, or their first fault.
pub fn read_hosts(alloc: Global, u: &Universe, bytes: &[u8]) -> Result<Hosts, HFault>
    requires { length bytes.now ≤ 65536 }
    ensures read { ReadsHosts result (hosts_in u.now bytes.now) }

    // The bytes are the text of what is read.
    ensures text { IfOk result (λ h. IsTextOf u.now h bytes.now) }

    // Each fault comes of the first line that is wrong, and is what is wrong with it, or of an end that is missing.
    ensures fault { IfFault NoMemory result (λ f. IsHostsFault u.now bytes.now f) }
    ensures few { IfOk result (λ h. length h.hosts ≤ 65536) }
    ensures sizes { IfOk result (λ h. length h.sizes ≡ type_count u.now) }
{
    let pieces = pieces_of(alloc, bytes)?;
    read_pieces(alloc, u, &pieces)
}

// The last piece is what stands behind the last line feed.
fn read_pieces(alloc: Global, u: &Universe, pieces: &[&[u8]]) -> Result<Hosts, HFault>
    requires { length pieces.now ≤ 65537 }
    ensures { ReadsHosts result (text_of u.now (whole_lines (map (λ piece. piece.now) pieces.now)) (last_piece (map (λ piece. piece.now) pieces.now))) }
{
    let mut seen = Seen::new(alloc);
    read_own(alloc, u, "metis hosts 1", pieces, &mut seen)?;
    Ok(seen.hosts(alloc, u)?)
}
