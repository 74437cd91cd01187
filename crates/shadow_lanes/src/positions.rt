ghost use Rattle.std.specs.Prelude.{◌≡◌, ◌<◌, [], ◌∷◌, ◌++◌, length};

use block_rule::Role;
use std::marker::Model;

/// The roles and positions of a transaction's shadows: at most 8.
#[derive(Drop)]
pub struct Positions {
    rows: [(Role, u32); 8],
    len: usize,
}

impl Model for Positions {
    ghost use Rattle.std.specs.Prelude.{List, ◌≤◌, take};
    ghost use Rattle.forest_model.specs.Origin.{Placed};

    ghost Value = { List Placed };

    ghost view = { λ p. take p.len p.rows };

    ghost invariant = { λ p. p.len ≤ 8 };
}

impl Positions {
    pub fn new() -> Positions
        ensures { result ≡ [] }
    {
        Positions {
            rows: [(Role::Optimistic, 0); 8],
            len: 0,
        }
    }

    pub fn push(&mut self, role: Role, position: u32)
        requires { length self.old < 8 }
        ensures { self.new ≡ self.old ++ (role, position) ∷ [] }
    {
        self.rows[self.len] = (role, position);
        self.len += 1;
    }

    pub fn as_slice(&self) -> &[(Role, u32)]
        ensures { result.now ≡ self.now }
    {
        &self.rows[..self.len]
    }
}
