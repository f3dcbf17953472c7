// The four SOS grids. A cell depends on L2's row class alone: the grids print the same in all nine L1 columns.
ghost use Rattle.std.specs.Prelude.{◌≡◌};
ghost use Rattle.grids.specs.Cells.{cell_of, measure_of, aspect_of};

use kinds::ranges;

const CLASSES: u32 = 9;

// A cell is ten times its S and its M, and 0 is NA: numbers, not an Option of both, for `cell_for`, `side_ground` and `raised` of the rules say so.
const CELLS: [[u32; 9]; 4] = [
    [15, 15, 22, 0, 22, 22, 0, 0, 22],
    [16, 16, 24, 0, 24, 24, 0, 0, 24],
    [16, 16, 14, 14, 14, 14, 24, 24, 14],
    [15, 15, 32, 32, 32, 32, 23, 23, 32],
];

// The cell of a grid, 1 to 4, and a row class, 1 to 9. Any other has none: 0, as NA.
#[tactic(auto, unfolding(crate::specs::Cells::cell_of, kinds::specs::Ranges::one_to))]
pub fn cell(grid: u32, class: u32) -> u32
    ensures { result ≡ cell_of grid class }
{
    if ranges::is_grid(grid) && ranges::is_one_to(CLASSES, class) {
        CELLS[grid as usize - 1][class as usize - 1]
    } else {
        0
    }
}

// The M of a cell.
pub fn measure(cell: u32) -> u32
    ensures { result ≡ measure_of cell }
{
    cell % 10
}

// The S of a cell.
pub fn aspect(cell: u32) -> u32
    ensures { result ≡ aspect_of cell }
{
    cell / 10
}
