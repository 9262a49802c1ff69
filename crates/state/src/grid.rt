// The grid as rows of three, as it is counted in, and as the one list that an account holds. Both are
// written out: the proof of `array::from_fn` over the rows did not close, and in `as_chunks` and
// `as_flattened` no place could be exchanged, as the edits rows_of_repeats_a_row and flat_of_repeats_a_cell do.
ghost use Rattle.std.specs.Prelude.{◌≡◌};
ghost use Rattle.state.specs.Grid.{rows_of, flat_of};

use crate::{CELLS, COLUMNS, ROW_COUNT};

// The grid as rows, each of packets, fragments and bytes.
pub fn rows_of(g: [u64; CELLS]) -> [[u64; COLUMNS]; ROW_COUNT]
    ensures { result ≡ rows_of g }
{
    [
        [g[0], g[1], g[2]],
        [g[3], g[4], g[5]],
        [g[6], g[7], g[8]],
        [g[9], g[10], g[11]],
        [g[12], g[13], g[14]],
        [g[15], g[16], g[17]],
        [g[18], g[19], g[20]],
        [g[21], g[22], g[23]],
        [g[24], g[25], g[26]],
        [g[27], g[28], g[29]],
    ]
}

// The grid of these rows.
pub fn flat_of(r: [[u64; COLUMNS]; ROW_COUNT]) -> [u64; CELLS]
    ensures { result ≡ flat_of r }
{
    [
        r[0][0], r[0][1], r[0][2], r[1][0], r[1][1], r[1][2], r[2][0], r[2][1], r[2][2], r[3][0],
        r[3][1], r[3][2], r[4][0], r[4][1], r[4][2], r[5][0], r[5][1], r[5][2], r[6][0], r[6][1],
        r[6][2], r[7][0], r[7][1], r[7][2], r[8][0], r[8][1], r[8][2], r[9][0], r[9][1], r[9][2],
    ]
}
