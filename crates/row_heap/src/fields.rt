// The fields of one row, seen as their list.
//
// Most objects have few fields. Up to two stand in the row itself and take no memory of their own; more stand in a
// vector. So most new objects cost no call of the allocator, and a marking finds their fields where the row is. A place
// that no field has is empty: so a marking looks at both places, and doesn't ask how many fields there are.

ghost use Rattle.std.specs.Prelude.{◌≡◌, ℕ, ◌<◌, ◌≤◌, ◌⊎◌, [], ◌∷◌, Some, None, false, Contains, IfOk, IsOk, length};
ghost use Rattle.std.specs.Prelude.{replicate, slice_set};
ghost use Rattle.reachability.specs.Marks.{HasMark};
ghost use Rattle.row_marking.specs.Traces.{Greyed};

use crate::places::{visit_field, visit_fields};
use std::alloc::{AllocError, Global};
use std::marker::Model;

/// The fields of a row, each of which holds the number of a row or nothing.
#[derive(Drop)]
pub(crate) struct Fields {
    cells: Cells,
}

// Where the fields stand: so many of them first in two places, of which the others are empty, or all in a vector.
#[derive(Drop)]
enum Cells {
    Few(u32, [Option<u32>; 2]),
    More(Vec<Option<u32>>),
}

impl Model for Fields {
    ghost use Rattle.std.specs.Prelude.{ℕ, List, Option};
    ghost use Rattle.row_heap.specs.Cells.{cells_in, AreCells};

    ghost Value = { List (Option ℕ) };

    ghost view = { λ s. cells_in s.cells };

    ghost invariant = { λ s. AreCells s.cells };
}

impl Fields {
    /// So many empty fields. Answers `AllocError` where there is no memory; up to two take none.
    pub(crate) fn empty(alloc: Global, n: u8) -> Result<Fields, AllocError>
        ensures ok { IfOk result (λ fields. fields ≡ replicate n None) }
        ensures few { n ≤ 2 → IsOk result }
    {
        if n > 2 {
            let cells = vec![in alloc; None; n as usize]?;
            return Ok(Fields {
                cells: Cells::More(cells),
            });
        }
        Ok(Fields {
            cells: Cells::Few(n as u32, [None; 2]),
        })
    }

    /// No fields.
    pub(crate) fn none() -> Fields
        ensures { result ≡ [] }
    {
        Fields {
            cells: Cells::Few(0, [None; 2]),
        }
    }

    /// The fields in order.
    pub(crate) fn as_slice(&self) -> &[Option<u32>]
        ensures { result.now ≡ self.now }
    {
        match &self.cells {
            Cells::Few(len, cells) => &cells[..*len as usize],
            Cells::More(cells) => cells.as_slice(),
        }
    }

    /// Field `i` holds another row, or none.
    pub(crate) fn set(&mut self, i: usize, y: Option<u32>)
        requires { i < length self.old }
        ensures { self.new ≡ slice_set self.old i y }
    {
        match &mut self.cells {
            Cells::Few(_, cells) => cells[i] = y,
            Cells::More(cells) => cells[i] = y,
        }
    }

    /// Marks what the fields hold, by the lists of marks and links; each row that wasn't marked comes first in the list
    /// of grey rows.
    pub(crate) fn visit(&self, marks: &mut [bool], links: &mut [u32], grey: &mut u32)
        requires held { (y : ℕ) → Contains self.now (Some y) → (1 ≤ y) × (y ≤ length marks.old) }
        requires len { length links.old ≡ length marks.old }
        ensures len { (length marks.new ≡ length marks.old) × (length links.new ≡ length links.old) }
        ensures fresh { (k : ℕ) → HasMark (false ∷ marks.new) k
            → HasMark (false ∷ marks.old) k ⊎ Contains self.now (Some k) }
        ensures raised { (k : ℕ) → HasMark (false ∷ marks.old) k → HasMark (false ∷ marks.new) k }
        ensures greyed { Greyed (λ y. Contains self.now (Some y)) (false ∷ marks.old)
            (0 ∷ links.old) grey.old (false ∷ marks.new) (0 ∷ links.new) grey.new }
    {
        match &self.cells {
            Cells::Few(_, cells) => {
                visit_field(cells[0], marks, links, grey);
                visit_field(cells[1], marks, links, grey);
            }
            Cells::More(cells) => visit_fields(cells.as_slice(), marks, links, grey),
        }
    }
}
