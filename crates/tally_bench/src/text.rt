//! Texts in the fields of records.

/// Writes a text into a field, up to the field's end.
pub(crate) fn put(field: &mut [u8], text: &[u8]) {
    for (to, from) in field.iter_mut().zip(text) {
        *to = *from;
    }
}

/// The last digits of a number in hexadecimal.
pub(crate) fn hex(number: u64) -> [u8; 8] {
    let mut digits = *b"00000000";
    let mut left = number;
    for digit in digits.iter_mut().rev() {
        let value = (left % 16) as u8;
        *digit = if value < 10 {
            b'0' + value
        } else {
            b'a' + (value - 10)
        };
        left /= 16;
    }
    digits
}

/// Writes a name: a word, and a number of few digits after it.
pub(crate) fn put_name(field: &mut [u8], word: &[u8], number: u64) {
    put(field, word);
    let digits = hex(number);
    for (to, from) in field.iter_mut().skip(word.len()).zip(&digits[5..]) {
        *to = *from;
    }
}

/// Four letters that stand for a number.
pub(crate) fn letters(number: u64) -> [u8; 4] {
    let mut letters = *b"aaaa";
    let mut left = number;
    for letter in letters.iter_mut() {
        *letter = b'a' + (left % 26) as u8;
        left /= 26;
    }
    letters
}
