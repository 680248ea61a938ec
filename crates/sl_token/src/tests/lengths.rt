// Where tokens stand, in short files and in files of the greatest length.

/// A file; and its tokens by kind and place.
pub(super) const SPANS: &[(&[u8], &str)] = &[
    (b"// #Sireum\n", ""),
    (b"// #Sireum\nx", "Ident 11..12"),
    (b"// #Sireum\n  x ", "Ident 13..14"),
    (b"// #Sireum\nx x", "Ident 11..12, Ident 13..14"),
    (b"// #Sireum\nx/*x*/x", "Ident 11..12, Ident 17..18"),
    (b"// #Sireum\n/*x*/x//x", "Ident 16..17"),
    (
        b"// #Sireum\nx\ny",
        "Ident 11..12, Separator 12..12, Ident 13..14",
    ),
    (
        b"// #Sireum\nx \n\n y",
        "Ident 11..12, Separator 12..12, Ident 16..17",
    ),
    (
        b"// #Sireum\nx/*\n*/\nx",
        "Ident 11..12, Separator 12..12, Ident 18..19",
    ),
    (
        b"// #Sireum\r\nx\r\ny\r\n",
        "Ident 12..13, Separator 13..13, Ident 15..16",
    ),
    (
        b"// #Sireum\n\xc3\xa9\n\xc3\xa9",
        "Ident 11..13, Separator 13..13, Ident 14..16",
    ),
    (
        b"// #Sireum\nval 12=>\"a\"'b''c s\"d\"+(",
        "Word 11..14, Number 15..17, Mark 17..19, Quoted 19..22, Letter 22..25, Symbol 25..27, Prefixed 28..32, Operator 32..33, Mark 33..34",
    ),
    (
        b"// #Sireum\n\"\"\"\n\"\"\"\n'\n'\n'\\u0041'",
        "Quoted 11..18, Separator 18..18, Letter 19..22, Separator 22..22, Letter 23..31",
    ),
    (b"// #Sireum\n()", "Mark 11..12, Mark 12..13"),
    (b"// #Sireum\n)\n\n)", "Mark 11..12, Mark 14..15"),
    (b"// #Sireum\n<--1", "Operator 11..14, Number 14..15"),
    (b"// #Sireum\nx $", "L3 at 13"),
    (b"// #Sireum\n\n\xc3\xa9\n01", "L8 at 15"),
];

/// How many bytes a file may have, and one more.
const MOST: usize = 4_194_304;

const LONG_BY_ONE: usize = 4_194_305;

/// What a file begins and ends with, the byte that it has between them and its length; and what comes of it.
pub(super) const LONG: &[(&[u8], &[u8], u8, usize, &str)] = &[
    (b"// #Sireum\n", b"", b'x', MOST, "Ident 11..4194304"),
    (b"// #Sireum\n", b"", b'x', LONG_BY_ONE, "L7 at 0"),
    (b"// #Sireum\n/*", b"*/", b' ', LONG_BY_ONE, "L7 at 0"),
    (
        b"// #Sireum\n/*",
        b"*/x",
        b'\n',
        MOST,
        "Ident 4194303..4194304",
    ),
    (b"// #Sireum\n/*", b"*/;", b'*', MOST, "L3 at 4194303"),
    (b"// #Sireum\n/*", b"\xff*/", b' ', MOST, "L2 at 4194301"),
    (b"// #Sireum\n/*", b"", b'*', MOST, "L6 at 11"),
    (b"// #Sireum\n", b"", b' ', LONG_BY_ONE, "L7 at 0"),
    (b"// #Sireum", b"", b' ', LONG_BY_ONE, "L7 at 0"),
    (b"// #Sireum\n\xff", b"", b' ', LONG_BY_ONE, "L7 at 0"),
    (b"// #Sireum\n\"", b"", b'x', LONG_BY_ONE, "L7 at 0"),
    (b"// #Sireum\n01", b"", b' ', 5_000_000, "L7 at 0"),
    (b"", b"", b'x', LONG_BY_ONE, "L1 at 0"),
    (b"// #Sireum\n", b"", b'_', 30_000, "Ident 11..30000"),
    (b"// #Sireum\n", b"", b'+', 30_000, "Operator 11..30000"),
    (b"// #Sireum\n'", b"", b'x', 30_000, "Symbol 11..30000"),
    (b"// #Sireum\n\"", b"\"", b'x', 30_000, "Quoted 11..30000"),
    (
        b"// #Sireum\n\"\"\"",
        b"\"\"\"",
        b'\n',
        30_000,
        "Quoted 11..30000",
    ),
    (
        b"// #Sireum\ns\"",
        b"\"",
        b'x',
        30_000,
        "Prefixed 11..30000",
    ),
    (b"// #Sireum\n/*", b"*/", b' ', 30_000, ""),
    (b"// #Sireum\n", b"", b' ', 30_000, ""),
    (b"// #Sireum\n", b"", b'\n', 30_000, ""),
    (b"// #Sireum", b"", b'x', 30_000, ""),
    (
        b"// #Sireum\nx",
        b"y",
        b'\n',
        30_000,
        "Ident 11..12, Separator 12..12, Ident 29999..30000",
    ),
    (b"// #Sireum\n", b"", b'1', 30_000, "L8 at 11"),
    (b"// #Sireum\n\"", b"", b'x', 30_000, "L4 at 11"),
    (b"// #Sireum\ns\"", b"\n", b'x', 30_000, "L4 at 11"),
    (b"// #Sireum\n\"\"\"", b"\"\"", b'x', 30_000, "L6 at 11"),
    (b"// #Sireum\ns\"\"\"", b"", b'x', 30_000, "L6 at 12"),
    (b"// #Sireum\n", b";", b' ', 30_000, "L3 at 29999"),
    (b"// #Sireum\n", b"\xff", b' ', 30_000, "L2 at 29999"),
    (b"// #Sireum\n\"", b"\\q\"", b'x', 30_000, "L5 at 29997"),
    (b"// #Sireum\n\xff", b"", b' ', 30_000, "L2 at 11"),
];
