// A shelf and a sink that never fail.
ghost use Rattle.std.specs.Prelude.{◌≡◌, ◌≤◌, ◌<◌, ◌-◌, ◌^◌, [], List, ℕ, Some, None, false, refl, length, unwrap_or, IsOk, IfOk, IfSome};
ghost use Rattle.causal_io.specs.Shelf.{GivesFrom};

use crate::memory::read_part;
use crate::{Failed, MemoryShelf, Shelf, Sink};

/// What a shelf in memory holds, and the empty text under every other name. It never fails.
#[derive(Drop)]
pub struct SureShelf {
    shelf: MemoryShelf,
}

impl SureShelf {
    ghost use Rattle.causal_io.specs.MemoryShelf.{held_in};

    /// Holds what this shelf in memory does, whatever reads of it were to fail.
    pub fn of(shelf: MemoryShelf) -> SureShelf
        ensures held { (name : List ℕ) → ⟦<SureShelf as Shelf>⟧.held result name ≡ Some (unwrap_or (held_in shelf name) []) }
        ensures faults { (name : List ℕ) → ⟦<SureShelf as Shelf>⟧.faults result name ≡ 0 }
    {
        SureShelf { shelf }
    }
}

impl Shelf for SureShelf {
    ghost use Rattle.causal_io.specs.SureShelf.{held_surely};
    ghost use Rattle.causal_io.specs.Laws.{zero_capped};

    ghost held = { held_surely };

    ghost lacks = { λ _ _. false };

    ghost faults = { λ _ _. 0 };

    ghost reads = { λ _ _. 0 };

    ghost given = { λ _ _. 0 };

    ghost share = { λ s a b p q. refl };

    ghost capped = { λ s name. zero_capped };

    fn read(&mut self, name: &str, from: u64, into: &mut [u8]) -> Result<usize, Failed>
        requires { 0 < length into.old }
        ensures never_fails { IsOk result }
        ensures bound { IfOk result (λ count. count ≤ length into.old) }
        ensures told { IfSome (held_surely self.old name.now) (λ all. IfOk result (GivesFrom all from into.new)) }
        ensures holds { self.new ≡ self.old }
    {
        let content = self.shelf.content(name).unwrap_or(&[]);
        Ok(read_part(content, from, into))
    }
}

/// Takes every piece whole, and never fails. It doesn't tell what was written.
#[derive(Clone, Copy, Debug)]
pub struct SureSink;

impl SureSink {
    /// A sink that nothing was written to.
    pub fn new() -> SureSink
        ensures { ⟦<SureSink as Sink>⟧.faults result ≡ 0 }
    {
        SureSink
    }
}

impl Sink for SureSink {
    ghost use Rattle.causal_io.specs.Laws.{zero_capped};

    ghost written = { λ _. None };

    ghost faults = { λ _. 0 };

    ghost capped = { λ _. zero_capped };

    fn write(&mut self, piece: &[u8]) -> Result<usize, Failed>
        ensures whole { IfOk result (λ count. count ≡ length piece.now) }
        ensures never_fails { IsOk result }
    {
        Ok(piece.len())
    }
}
