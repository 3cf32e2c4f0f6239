//! Texts, each with the calls that write it as a quoted string. The calls of each character are typed by hand.

use std::alloc::{AllocError, Global};

/// A character, and the calls that write it, in the encoding of `Calls`: each ends with the byte `0xff`.
#[derive(Clone, Copy)]
pub struct Letter {
    c: char,
    /// Whether an identifier without quotes may contain it.
    is_id: bool,
    /// The calls in a quoted string.
    quoted: &'static [u8],
    /// The calls in a byte string, for the bytes of its UTF-8 encoding.
    bytes: &'static [u8],
}

/// The number of plain letters. It divides neither 85 nor 256, the lengths of runs.
const PLAIN_LEN: usize = 7;

const PLAIN: &[Letter] = &[
    Letter {
        c: 'a',
        is_id: true,
        quoted: b"a\xff",
        bytes: b"a\xff",
    },
    Letter {
        c: 'b',
        is_id: true,
        quoted: b"b\xff",
        bytes: b"b\xff",
    },
    Letter {
        c: 'c',
        is_id: true,
        quoted: b"c\xff",
        bytes: b"c\xff",
    },
    Letter {
        c: 'd',
        is_id: true,
        quoted: b"d\xff",
        bytes: b"d\xff",
    },
    Letter {
        c: 'e',
        is_id: true,
        quoted: b"e\xff",
        bytes: b"e\xff",
    },
    Letter {
        c: 'f',
        is_id: true,
        quoted: b"f\xff",
        bytes: b"f\xff",
    },
    Letter {
        c: 'g',
        is_id: true,
        quoted: b"g\xff",
        bytes: b"g\xff",
    },
];

pub const SPACE: Letter = Letter {
    c: ' ',
    is_id: false,
    quoted: b" \xff",
    bytes: b" \xff",
};

pub const QUOTE: Letter = Letter {
    c: '"',
    is_id: false,
    quoted: b"\\u{\xff2\xff2\xff}\xff",
    bytes: b"\\\xff2\xff2\xff",
};

/// The letter e with an acute accent.
pub const ACUTE: Letter = Letter {
    c: '\u{e9}',
    is_id: false,
    quoted: b"\\u{\xffe\xff9\xff}\xff",
    bytes: b"\\\xffc\xff3\xff\\\xffa\xff9\xff",
};

/// The greatest character.
pub const GREATEST: Letter = Letter {
    c: '\u{10ffff}',
    is_id: false,
    quoted: b"\\u{\xff1\xff0\xfff\xfff\xfff\xfff\xff}\xff",
    bytes: b"\\\xfff\xff4\xff\\\xff8\xfff\xff\\\xffb\xfff\xff\\\xffb\xfff\xff",
};

/// Characters for pseudorandom texts.
const ODD: &[Letter] = &[
    SPACE,
    QUOTE,
    ACUTE,
    GREATEST,
    Letter {
        c: '~',
        is_id: true,
        quoted: b"~\xff",
        bytes: b"~\xff",
    },
    Letter {
        c: '\\',
        is_id: true,
        quoted: b"\\u{\xff5\xffc\xff}\xff",
        bytes: b"\\\xff5\xffc\xff",
    },
    Letter {
        c: '\0',
        is_id: false,
        quoted: b"\\u{\xff0\xff}\xff",
        bytes: b"\\\xff0\xff0\xff",
    },
    Letter {
        c: '\n',
        is_id: false,
        quoted: b"\\u{\xffa\xff}\xff",
        bytes: b"\\\xff0\xffa\xff",
    },
    Letter {
        c: '\u{1b}',
        is_id: false,
        quoted: b"\\u{\xff1\xffb\xff}\xff",
        bytes: b"\\\xff1\xffb\xff",
    },
    Letter {
        c: '\u{7f}',
        is_id: false,
        quoted: b"\\u{\xff7\xfff\xff}\xff",
        bytes: b"\\\xff7\xfff\xff",
    },
    Letter {
        c: '\u{80}',
        is_id: false,
        quoted: b"\\u{\xff8\xff0\xff}\xff",
        bytes: b"\\\xffc\xff2\xff\\\xff8\xff0\xff",
    },
    Letter {
        c: '\u{7ff}',
        is_id: false,
        quoted: b"\\u{\xff7\xfff\xfff\xff}\xff",
        bytes: b"\\\xffd\xfff\xff\\\xffb\xfff\xff",
    },
    Letter {
        c: '\u{800}',
        is_id: false,
        quoted: b"\\u{\xff8\xff0\xff0\xff}\xff",
        bytes: b"\\\xffe\xff0\xff\\\xffa\xff0\xff\\\xff8\xff0\xff",
    },
    Letter {
        c: '\u{20ac}',
        is_id: false,
        quoted: b"\\u{\xff2\xff0\xffa\xffc\xff}\xff",
        bytes: b"\\\xffe\xff2\xff\\\xff8\xff2\xff\\\xffa\xffc\xff",
    },
    Letter {
        c: '\u{ffff}',
        is_id: false,
        quoted: b"\\u{\xfff\xfff\xfff\xfff\xff}\xff",
        bytes: b"\\\xffe\xfff\xff\\\xffb\xfff\xff\\\xffb\xfff\xff",
    },
    Letter {
        c: '\u{1f600}',
        is_id: false,
        quoted: b"\\u{\xff1\xfff\xff6\xff0\xff0\xff}\xff",
        bytes: b"\\\xfff\xff0\xff\\\xff9\xfff\xff\\\xff9\xff8\xff\\\xff8\xff0\xff",
    },
];

/// A text, and the calls that write its content.
#[derive(Drop)]
pub struct Sample {
    pub text: String,
    /// The calls in a quoted string, without those for its quotes.
    pub quoted: Vec<u8>,
    /// The calls in a byte string, without those for its quotes.
    pub bytes: Vec<u8>,
    /// Whether the text, if it is not empty, may be an identifier without quotes.
    pub is_id: bool,
}

impl Sample {
    fn new(alloc: Global) -> Sample {
        Sample {
            text: String::new(alloc),
            quoted: Vec::new(alloc),
            bytes: Vec::new(alloc),
            is_id: true,
        }
    }

    fn push(&mut self, letter: Letter) -> Result<(), AllocError> {
        self.text.push(letter.c)?;
        self.quoted.extend_from_slice(letter.quoted)?;
        self.bytes.extend_from_slice(letter.bytes)?;
        self.is_id = self.is_id && letter.is_id;
        Ok(())
    }
}

/// The number of characters for pseudorandom texts: four bits of a number select one.
const ODD_LEN: usize = 16;

/// Reports whether there are as many characters of each kind as are selected from.
pub fn are_complete() -> bool {
    PLAIN.len() == PLAIN_LEN && ODD.len() == ODD_LEN
}

/// Returns the plain letter at a position of a text.
fn plain_at(place: usize) -> Letter {
    match PLAIN.get(place % PLAIN_LEN) {
        Some(letter) => *letter,
        None => SPACE,
    }
}

/// Returns a text of `len` plain letters, with `letter` at the position `place`.
pub fn letters_but(
    alloc: Global,
    len: usize,
    place: usize,
    letter: Letter,
) -> Result<Sample, AllocError> {
    let mut sample = Sample::new(alloc);
    for at in 0..len {
        sample.push(if at == place { letter } else { plain_at(at) })?;
    }
    Ok(sample)
}

/// Returns a text of `len` plain letters.
pub fn letters(alloc: Global, len: usize) -> Result<Sample, AllocError> {
    letters_but(alloc, len, len, SPACE)
}

/// Returns a text of `len` copies of a character.
pub fn repeated(alloc: Global, len: usize, letter: Letter) -> Result<Sample, AllocError> {
    let mut sample = Sample::new(alloc);
    for _ in 0..len {
        sample.push(letter)?;
    }
    Ok(sample)
}

/// Returns the pseudorandom number after this one.
fn drawn_after(number: u32) -> u32 {
    number.wrapping_mul(1_664_525).wrapping_add(1_013_904_223)
}

/// Returns the odd character that a pseudorandom number selects.
fn drawn_letter(number: u32) -> Letter {
    match ODD.get((number >> 28) as usize) {
        Some(letter) => *letter,
        None => QUOTE,
    }
}

/// Returns a pseudorandom text of `len` characters: a plain letter if the number has a bit of the mask, otherwise
/// an odd character.
pub fn mixed(alloc: Global, len: usize, (seed, mask): (u32, u32)) -> Result<Sample, AllocError> {
    let mut sample = Sample::new(alloc);
    let mut number = seed;
    for place in 0..len {
        number = drawn_after(number);
        sample.push(if (number >> 16) & mask == 0 {
            drawn_letter(number)
        } else {
            plain_at(place)
        })?;
    }
    Ok(sample)
}
