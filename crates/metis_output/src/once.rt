//! One line.
ghost use Rattle.std.specs.Prelude.{◌≡◌, ◌∷◌, [], string_bytes};
ghost use Rattle.metis_outside.specs.Terms.{IsLine};

use crate::Lines;
use std::alloc::{AllocError, Global};
use std::marker::Model;

/// One line, until it is given. Contracts see the lines that are left.
#[derive(Drop)]
pub struct Once {
    line: Option<String>,
}

impl Model for Once {
    ghost use Rattle.std.specs.Prelude.{List, ℕ, option_map, string_bytes};
    ghost use Rattle.std.specs.List.{All};
    ghost use Rattle.std.specs.Option.{option_to_list};
    ghost use Rattle.metis_outside.specs.Pieces.{IsLine};

    ghost Value = { List (List ℕ) };

    ghost view = { λ o. option_to_list (option_map string_bytes o.line) };

    ghost invariant = { λ o. All IsLine (option_to_list (option_map string_bytes o.line)) };
}

impl Once {
    /// This line.
    pub fn of(line: String) -> Once
        requires { IsLine (string_bytes line) }
        ensures { result ≡ string_bytes line ∷ [] }
    {
        Once { line: Some(line) }
    }
}

impl Lines for Once {
    ghost rest = { λ o. o };

    fn next_line(&mut self, line: &mut String) -> Result<bool, AllocError> {
        match self.line.take() {
            Some(own) => {
                *line = own;
                Ok(true)
            }
            None => Ok(false),
        }
    }
}
