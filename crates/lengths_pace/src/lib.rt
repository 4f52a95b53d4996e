// The LENGTH word of a PACE frame (01, PACE): a count of characters, and a digit that closes the sum of the digits.
#![tactic(auto)]

ghost use Rattle.std.specs.Prelude.{◌≡◌};
ghost use Rattle.lengths_pace.specs.Lengths.{word_of, count_of};

// The LENGTH word of a count of characters, if that is at most 4,095.
#[tactic(auto, unfolding(crate::specs::Lengths::word_of))]
pub fn length_word(count: u16) -> Option<u16>
    ensures { result ≡ word_of count }
{
    if count < 4096 {
        let sum = count / 256 % 16 + count / 16 % 16 + count % 16;
        Some((16 - sum % 16) % 16 * 4096 + count)
    } else {
        None
    }
}

// The count of characters in a LENGTH word, if its top digit is right.
#[tactic(auto, unfolding(crate::specs::Lengths::count_of))]
pub fn length_count(word: u16) -> Option<u16>
    ensures { result ≡ count_of word }
{
    let sum = word / 256 % 16 + word / 16 % 16 + word % 16;
    let digit = word / 4096 % 16;
    if (sum + digit) % 16 == 0 {
        Some(word % 4096)
    } else {
        None
    }
}
