// The letters of Turkish text in ISO 8859-9, as a constant table: the class of each byte.

#![tactic(auto)]

ghost use Rattle.std.specs.Prelude.{◌≡◌};
ghost use Rattle.turkish_letters.specs.Letters.{turkish_classes};

use code::Classes;

// Entry B is the class of byte B: 0 for a vowel, 1 for a consonant, 16 for any other byte.
const TURKISH: [u8; Classes::BYTES] = [
    16, 16, 16, 16, 16, 16, 16, 16, 16, 16, 16, 16, 16, 16, 16, 16, 16, 16, 16, 16, 16, 16, 16, 16,
    16, 16, 16, 16, 16, 16, 16, 16, 16, 16, 16, 16, 16, 16, 16, 16, 16, 16, 16, 16, 16, 16, 16, 16,
    16, 16, 16, 16, 16, 16, 16, 16, 16, 16, 16, 16, 16, 16, 16, 16, 16, 0, // A
    1, // B
    1, // C
    1, // D
    0, // E
    1, // F
    1, // G
    1, // H
    0, // I
    1, // J
    1, // K
    1, // L
    1, // M
    1, // N
    0, // O
    1, // P
    16, 1, // R
    1, // S
    1, // T
    0, // U
    1, // V
    16, 16, 1, // Y
    1, // Z
    16, 16, 16, 16, 16, 16, 0, // a
    1, // b
    1, // c
    1, // d
    0, // e
    1, // f
    1, // g
    1, // h
    0, // i
    1, // j
    1, // k
    1, // l
    1, // m
    1, // n
    0, // o
    1, // p
    16, 1, // r
    1, // s
    1, // t
    0, // u
    1, // v
    16, 16, 1, // y
    1, // z
    16, 16, 16, 16, 16, 16, 16, 16, 16, 16, 16, 16, 16, 16, 16, 16, 16, 16, 16, 16, 16, 16, 16, 16,
    16, 16, 16, 16, 16, 16, 16, 16, 16, 16, 16, 16, 16, 16, 16, 16, 16, 16, 16, 16, 16, 16, 16, 16,
    16, 16, 16, 16, 16, 16, 16, 16, 16, 16, 16, 16, 16, 16, 16, 16, 16, 16, 16, 16, 16, 16, 16, 16,
    16, 16, 16, 16, 1, // Ç
    16, 16, 16, 16, 16, 16, 16, 16, 1, // Ğ
    16, 16, 16, 16, 16, 0, // Ö
    16, 16, 16, 16, 16, 0, // Ü
    0, // İ
    1, // Ş
    16, 16, 16, 16, 16, 16, 16, 16, 1, // ç
    16, 16, 16, 16, 16, 16, 16, 16, 1, // ğ
    16, 16, 16, 16, 16, 0, // ö
    16, 16, 16, 16, 16, 0, // ü
    0, // ı
    1, // ş
    16,
];

// The classes of Turkish letters.
pub fn turkish() -> Classes
    ensures { result.entries ≡ turkish_classes }
{
    Classes { entries: TURKISH }
}
