//! The free rooms of hosts, in a tree that knows the greatest room of each part.
ghost use Rattle.std.specs.Prelude.{◌≡◌, ◌≤◌, ◌<◌, ◌^◌, ◌++◌, IfOk, length, slice_index, slice_set};
ghost use Rattle.metis_ids.specs.Terms.{greatest};
ghost use Rattle.metis_place.specs.Terms.{first_place};

use metis_ids::NoMemory;
use std::alloc::Global;
use std::marker::Model;

/// The free room of each host.
#[cycle(rooms)]
#[derive(Drop)]
pub struct Rooms {
    /// The greatest of them.
    most: u64,
    node: Node,
}

#[cycle(rooms)]
#[derive(Drop)]
enum Node {
    // No host.
    Empty,
    // One host, whose room is the greatest.
    Leaf,
    // The rooms of the first hosts, how many these are, and the rooms of the others.
    Fork(Box<Rooms>, u32, Box<Rooms>),
}

impl Model for Rooms {
    ghost use Rattle.std.specs.Prelude.{ℕ, List, length};

    ghost Value = { List ℕ };

    ghost use Rattle.metis_place.specs.Rooms.{IsRooms, rooms};

    ghost view = { λ a. rooms a.most a.node };

    ghost invariant = { λ a. IsRooms a.most a.node };

    ghost size = { length };

    ghost use Rattle.metis_place.specs.RoomsFall.{depth_le_rooms};

    ghost size_decreases = { λ a h. depth_le_rooms a.most a.node h };
}

impl Rooms {
    /// The free rooms of hosts, in order.
    pub fn of(alloc: Global, rooms: &[u64]) -> Result<Rooms, NoMemory>
        requires { length rooms.now < 2 ^ 32 }
        ensures { IfOk result (λ r. r ≡ rooms.now) }
    {
        if rooms.is_empty() {
            return Ok(Rooms {
                most: 0,
                node: Node::Empty,
            });
        }
        if rooms.len() == 1 {
            return Ok(Rooms {
                most: rooms[0],
                node: Node::Leaf,
            });
        }
        let half = rooms.len() / 2;
        let first = Rooms::of(alloc, &rooms[..half])?;
        let others = Rooms::of(alloc, &rooms[half..])?;
        let most = first.most().max(others.most());
        let first = Box::new(alloc, first)?;
        let others = Box::new(alloc, others)?;
        Ok(Rooms {
            most,
            node: Node::Fork(first, half as u32, others),
        })
    }

    /// The greatest room.
    pub fn most(&self) -> u64
        ensures { result ≡ greatest self.now }
    {
        self.most
    }

    /// The first host with so much room.
    pub fn first(&self, size: u32) -> Option<u32>
        requires { length self.now < 2 ^ 32 }
        ensures { result ≡ first_place size self.now }
    {
        if self.most < u64::from(size) {
            return None;
        }
        match &self.node {
            Node::Empty => None,
            Node::Leaf => Some(0),
            Node::Fork(first, count, others) => match first.first(size) {
                Some(place) => Some(place),
                None => match others.first(size) {
                    Some(place) => Some(*count + place),
                    None => None,
                },
            },
        }
    }

    /// The room of a host.
    pub fn room(&self, place: u32) -> u64
        requires { place < length self.now }
        ensures { result ≡ slice_index self.now place }
    {
        match &self.node {
            Node::Empty => 0,
            Node::Leaf => self.most,
            Node::Fork(first, count, others) => {
                if place < *count {
                    first.room(place)
                } else {
                    others.room(place - *count)
                }
            }
        }
    }

    /// Sets the room of a host.
    pub fn set(&mut self, place: u32, room: u64)
        requires { place < length self.old }
        ensures { self.new ≡ slice_set self.old place room }
    {
        match &mut self.node {
            Node::Empty => {}
            Node::Leaf => {
                self.most = room;
            }
            Node::Fork(first, count, others) => {
                if place < *count {
                    first.set(place, room);
                    self.most = first.most().max(others.most());
                    return;
                }
                others.set(place - *count, room);
                self.most = first.most().max(others.most());
            }
        }
    }
}
