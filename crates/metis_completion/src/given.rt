//! The standing instances that are given to fresh ones.
ghost use Rattle.std.specs.Prelude.{◌≡◌, ◌<◌, ◌++◌, ◌∷◌, [], IfOk, OnErr, OnOk, length, replicate, slice_set};
ghost use Rattle.metis_completion.specs.Terms.{given_in};

use metis_ids::{InstNo, NoMemory, PortIx};
use std::alloc::Global;
use std::marker::Model;

/// The given instances of one port. Contracts see them as their list.
#[derive(Drop)]
struct GivenRow {
    instances: Vec<InstNo>,
}

impl Model for GivenRow {
    ghost use Rattle.std.specs.Prelude.{List, ℕ};

    ghost Value = { List ℕ };

    ghost view = { λ a. a.instances.items };
}

/// The given instances of each port. Contracts see the lists of the ports in order.
#[derive(Drop)]
pub struct Given {
    rows: Vec<GivenRow>,
}

impl Model for Given {
    ghost use Rattle.std.specs.Prelude.{List, ℕ};

    ghost Value = { List (List ℕ) };

    ghost view = { λ a. a.rows.items };
}

impl Given {
    /// None, of so many ports. The error is that memory ran out.
    pub fn with_ports(alloc: Global, ports: u32) -> Result<Given, NoMemory>
        ensures { IfOk result (λ given. given ≡ replicate ports []) }
    {
        let mut rows = Vec::new(alloc);
        for _ in 0..ports {
            rows.push(GivenRow {
                instances: Vec::new(alloc),
            })?;
        }
        Ok(Given { rows })
    }

    /// Gives one more of the port, behind the others. Where memory runs out nothing changes.
    pub fn add(&mut self, port: PortIx, z: InstNo) -> Result<(), NoMemory>
        requires { port < length self.old }
        ensures ok { OnOk result (self.new ≡ slice_set self.old port (given_in self.old port ++ z ∷ [])) }
        ensures err { OnErr result (self.new ≡ self.old) }
    {
        self.rows[port.0 as usize].instances.push(z)?;
        Ok(())
    }

    /// The given instances of the port.
    pub fn of(&self, port: PortIx) -> &[InstNo]
        ensures { result.now ≡ given_in self.now port }
    {
        match self.rows.get(port.0 as usize) {
            Some(row) => row.instances.as_slice(),
            None => &[],
        }
    }
}
