//! Numbers below 16 and words, in hexadecimal digits.

ghost use Rattle.std.specs.Prelude.{◌≡◌, ◌<◌};
ghost use Rattle.std.specs.Char.{digit_char};
ghost use Rattle.texts.specs.Hexadecimal.{hex8};

/// The lower-case hexadecimal digit of a number below 16.
pub fn hex_digit(number: u8) -> u8
    requires { number < 16 }
    ensures { result ≡ digit_char number }
{
    if number < 10 {
        b'0' + number
    } else {
        b'a' - 10 + number
    }
}

/// A word in eight lower-case hexadecimal digits, the highest first.
#[tactic(auto, unfolding(crate::specs::Hexadecimal::hex8))]
pub fn hex8(word: u32) -> [u8; 8]
    ensures { result ≡ hex8 word }
{
    [
        hex_digit((word / 0x1000_0000 % 16) as u8),
        hex_digit((word / 0x100_0000 % 16) as u8),
        hex_digit((word / 0x10_0000 % 16) as u8),
        hex_digit((word / 0x1_0000 % 16) as u8),
        hex_digit((word / 0x1000 % 16) as u8),
        hex_digit((word / 0x100 % 16) as u8),
        hex_digit((word / 0x10 % 16) as u8),
        hex_digit((word % 16) as u8),
    ]
}
