//! One round.
ghost use Rattle.std.specs.Prelude.{◌≡◌};
ghost use Rattle.skinny.specs.Skinny.{sub_cells, add_constants, add_round_tweakey, shift_rows, mix_columns, round as round_of};

use crate::sbox::s8;

/// SubCells.
fn substituted(s: &[u8; 16]) -> [u8; 16]
    ensures { result ≡ sub_cells s.now }
{
    // a loop, since an array's `map` takes many times as long
    let mut cells = *s;
    for x in cells.iter_mut() {
        *x = s8(*x);
    }
    cells
}

/// AddConstants, AddRoundTweakey, ShiftRows and MixColumns in one pass over the cells.
#[tactic(auto, unfolding(crate::specs::Skinny::add_constants, crate::specs::Skinny::add_round_tweakey, crate::specs::Skinny::shift_rows, crate::specs::Skinny::mix_columns))]
fn diffused(c: u8, k: &[u8; 8], s: &[u8; 16]) -> [u8; 16]
    ensures { result ≡ mix_columns (shift_rows (add_round_tweakey k.now (add_constants c s.now))) }
{
    // p, q, r and the cells 12 to 15 of s are the rows, from the top; q, r and the last are read as ShiftRows leaves them.
    let p = [
        k[0] ^ ((c % 16) ^ s[0]),
        k[1] ^ s[1],
        k[2] ^ s[2],
        k[3] ^ s[3],
    ];
    let q = [
        k[7] ^ s[7],
        k[4] ^ ((c / 16) ^ s[4]),
        k[5] ^ s[5],
        k[6] ^ s[6],
    ];
    let r = [s[10], s[11], 2 ^ s[8], s[9]];
    let u = [p[0] ^ r[0], p[1] ^ r[1], p[2] ^ r[2], p[3] ^ r[3]];
    [
        u[0] ^ s[13],
        u[1] ^ s[14],
        u[2] ^ s[15],
        u[3] ^ s[12],
        p[0],
        p[1],
        p[2],
        p[3],
        q[0] ^ r[0],
        q[1] ^ r[1],
        q[2] ^ r[2],
        q[3] ^ r[3],
        u[0],
        u[1],
        u[2],
        u[3],
    ]
}

/// A round with its constant and its round tweakey.
#[tactic(auto, unfolding(crate::specs::Skinny::round))]
pub fn round(c: u8, k: &[u8; 8], s: &[u8; 16]) -> [u8; 16]
    ensures { result ≡ round_of c k.now s.now }
{
    diffused(c, k, &substituted(s))
}
