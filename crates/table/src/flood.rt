// The flood from atom 0: which atoms were seen, and in which order.
ghost use Rattle.std.specs.Prelude.{◌≡◌, ℕ, ◌+◌, ◌*◌, ◌<◌, get_or};
ghost use Rattle.table.specs.Arrays.{HasRow, row_in};
ghost use Rattle.table.specs.Flood.{flood_start, see, see_all, Counted};

use super::rows::Rows;
use super::{AtomNo, Table};

#[derive(Clone, Copy, Drop)]
pub struct Flood {
    pub seen: [bool; Table::MAX_ATOMS],
    pub queue: [u8; Table::MAX_ATOMS],
    pub end: usize,
}

impl Flood {
    pub fn start() -> Flood
        ensures { result ≡ flood_start }
    {
        let mut seen = [false; Table::MAX_ATOMS];
        seen[0] = true;
        Flood {
            seen,
            queue: [0u8; Table::MAX_ATOMS],
            end: 1,
        }
    }

    fn see(&mut self, b: AtomNo)
        requires { Counted self.old × (b.0 < 64) }
        ensures { self.new ≡ see self.old b.0 }
    {
        let i = b.0 as usize;
        if !self.seen[i] {
            self.seen[i] = true;
            self.queue[self.end] = b.0;
            self.end += 1;
        }
    }

    // Sees the neighbours of a.
    pub fn visit(&mut self, rows: &Rows, a: AtomNo)
        requires { Counted self.old × HasRow rows.now.degrees rows.now.near a.0 × ((p : ℕ) → p < get_or rows.now.degrees a.0 0 → get_or rows.now.near (6 * a.0 + p) 0 < 64) }
        ensures { self.new ≡ see_all self.old (row_in rows.now.degrees rows.now.near a.0) }
    {
        for b in rows.near_of(a) {
            self.see(AtomNo(*b));
        }
    }
}
