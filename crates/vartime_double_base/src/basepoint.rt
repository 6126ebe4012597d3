// The basepoint's NAF window of width 8.
ghost use Rattle.std.specs.Prelude.{◌≡◌};
ghost use Rattle.rules.specs.Group.{residues};
ghost use Rattle.rules.specs.Windows.{odd, limbs_flat};
ghost use Rattle.rules.specs.Helpers.{walked};

use rules::Walk;

// Its odd multiples 1, 3, .. 127, four limbs each.
const ODD_MULTIPLES_OF_BASEPOINT: [u64; 256] = [
    1, 0, 0, 0, 3, 0, 0, 0, 5, 0, 0, 0, 7, 0, 0, 0, 9, 0, 0, 0, 11, 0, 0, 0, 13, 0, 0, 0, 15, 0, 0,
    0, 17, 0, 0, 0, 19, 0, 0, 0, 21, 0, 0, 0, 23, 0, 0, 0, 25, 0, 0, 0, 27, 0, 0, 0, 29, 0, 0, 0,
    31, 0, 0, 0, 33, 0, 0, 0, 35, 0, 0, 0, 37, 0, 0, 0, 39, 0, 0, 0, 41, 0, 0, 0, 43, 0, 0, 0, 45,
    0, 0, 0, 47, 0, 0, 0, 49, 0, 0, 0, 51, 0, 0, 0, 53, 0, 0, 0, 55, 0, 0, 0, 57, 0, 0, 0, 59, 0,
    0, 0, 61, 0, 0, 0, 63, 0, 0, 0, 65, 0, 0, 0, 67, 0, 0, 0, 69, 0, 0, 0, 71, 0, 0, 0, 73, 0, 0,
    0, 75, 0, 0, 0, 77, 0, 0, 0, 79, 0, 0, 0, 81, 0, 0, 0, 83, 0, 0, 0, 85, 0, 0, 0, 87, 0, 0, 0,
    89, 0, 0, 0, 91, 0, 0, 0, 93, 0, 0, 0, 95, 0, 0, 0, 97, 0, 0, 0, 99, 0, 0, 0, 101, 0, 0, 0,
    103, 0, 0, 0, 105, 0, 0, 0, 107, 0, 0, 0, 109, 0, 0, 0, 111, 0, 0, 0, 113, 0, 0, 0, 115, 0, 0,
    0, 117, 0, 0, 0, 119, 0, 0, 0, 121, 0, 0, 0, 123, 0, 0, 0, 125, 0, 0, 0, 127, 0, 0, 0,
];

// The walk down the columns of one dynamic row, and of the basepoint's row on that window.
pub(crate) fn walk(row: &[i8], window: &[u64], basepoint_row: &[i8], places: usize) -> Walk
    ensures { result ≡ walked row.now window.now basepoint_row.now (limbs_flat (odd residues 1) 64) places }
{
    columns::walk(
        row,
        window,
        basepoint_row,
        &ODD_MULTIPLES_OF_BASEPOINT,
        places,
    )
}
