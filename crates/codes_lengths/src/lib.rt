// How long codes are: a table of 2 times 256 lengths, of which the rule by ranges holds at every entry.
#![tactic(auto)]

ghost use Rattle.std.specs.Prelude.{◌≡◌};
ghost use Rattle.model.specs.Codes.{length_by, length_table};

// How many bytes a code has: by its first byte, and then by the byte behind 0x10; 0 where the byte tells no length.
const LENGTHS: [[u8; 256]; 2] = [
    [
        1, // 00 to 0F
        1, 1, 1, 1, 1, 1, 1, 1, 1, 1, 1, 1, 1, 1, 1, 0, // 10
        2, // 11 to 17
        2, 2, 2, 2, 2, 2, 3, // 18 to 1F
        3, 3, 3, 3, 3, 3, 3, 1, // 20 to 87
        1, 1, 1, 1, 1, 1, 1, 1, 1, 1, 1, 1, 1, 1, 1, 1, 1, 1, 1, 1, 1, 1, 1, 1, 1, 1, 1, 1, 1, 1,
        1, 1, 1, 1, 1, 1, 1, 1, 1, 1, 1, 1, 1, 1, 1, 1, 1, 1, 1, 1, 1, 1, 1, 1, 1, 1, 1, 1, 1, 1,
        1, 1, 1, 1, 1, 1, 1, 1, 1, 1, 1, 1, 1, 1, 1, 1, 1, 1, 1, 1, 1, 1, 1, 1, 1, 1, 1, 1, 1, 1,
        1, 1, 1, 1, 1, 1, 1, 1, 1, 1, 1, 1, 1, 2, // 88 to 8D
        2, 2, 2, 2, 2, 1, // 8E to 8F
        1, 3, // 90
        4, // 91
        3, // 92
        1, // 93 to 96
        1, 1, 1, 5, // 97
        7, // 98 to 9F
        7, 7, 7, 7, 7, 7, 7, 1, // A0 to FF
        1, 1, 1, 1, 1, 1, 1, 1, 1, 1, 1, 1, 1, 1, 1, 1, 1, 1, 1, 1, 1, 1, 1, 1, 1, 1, 1, 1, 1, 1,
        1, 1, 1, 1, 1, 1, 1, 1, 1, 1, 1, 1, 1, 1, 1, 1, 1, 1, 1, 1, 1, 1, 1, 1, 1, 1, 1, 1, 1, 1,
        1, 1, 1, 1, 1, 1, 1, 1, 1, 1, 1, 1, 1, 1, 1, 1, 1, 1, 1, 1, 1, 1, 1, 1, 1, 1, 1, 1, 1, 1,
        1, 1, 1, 1, 1,
    ],
    [
        2, // 00 to 07
        2, 2, 2, 2, 2, 2, 2, 3, // 08 to 0F
        3, 3, 3, 3, 3, 3, 3, 4, // 10 to 17
        4, 4, 4, 4, 4, 4, 4, 5, // 18 to 1F
        5, 5, 5, 5, 5, 5, 5, 2, // 20 to 7F
        2, 2, 2, 2, 2, 2, 2, 2, 2, 2, 2, 2, 2, 2, 2, 2, 2, 2, 2, 2, 2, 2, 2, 2, 2, 2, 2, 2, 2, 2,
        2, 2, 2, 2, 2, 2, 2, 2, 2, 2, 2, 2, 2, 2, 2, 2, 2, 2, 2, 2, 2, 2, 2, 2, 2, 2, 2, 2, 2, 2,
        2, 2, 2, 2, 2, 2, 2, 2, 2, 2, 2, 2, 2, 2, 2, 2, 2, 2, 2, 2, 2, 2, 2, 2, 2, 2, 2, 2, 2, 2,
        2, 2, 2, 2, 2, 6, // 80 to 87
        6, 6, 6, 6, 6, 6, 6, 7, // 88 to 8F
        7, 7, 7, 7, 7, 7, 7, 0, // 90 to 9F
        0, 0, 0, 0, 0, 0, 0, 0, 0, 0, 0, 0, 0, 0, 0, 2, // A0 to FF
        2, 2, 2, 2, 2, 2, 2, 2, 2, 2, 2, 2, 2, 2, 2, 2, 2, 2, 2, 2, 2, 2, 2, 2, 2, 2, 2, 2, 2, 2,
        2, 2, 2, 2, 2, 2, 2, 2, 2, 2, 2, 2, 2, 2, 2, 2, 2, 2, 2, 2, 2, 2, 2, 2, 2, 2, 2, 2, 2, 2,
        2, 2, 2, 2, 2, 2, 2, 2, 2, 2, 2, 2, 2, 2, 2, 2, 2, 2, 2, 2, 2, 2, 2, 2, 2, 2, 2, 2, 2, 2,
        2, 2, 2, 2, 2,
    ],
];

// The table, whole: each entry is what the ranges say of it [K1] [K2].
pub fn lengths() -> [[u8; 256]; 2]
    ensures { result ≡ length_table }
{
    LENGTHS
}

// The length that a byte tells, as the first of a code or as the one behind 0x10; 0 for none [K1] [K2].
pub fn length_by(ext1: bool, byte: u8) -> u8
    ensures { result ≡ length_by ext1 byte }
{
    let table = lengths();
    let b = byte as usize;
    if ext1 {
        return table[1][b];
    }
    table[0][b]
}
