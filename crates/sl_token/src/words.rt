// The words of the language, and the runs of operator characters that are Marks.
ghost use Rattle.std.specs.Prelude.{◌≡◌, length};
ghost use Rattle.sl_token.specs.Spellings.{is_word, is_sign};

// The words of the language, by their lengths: most identifiers are compared with few of them.
const TWO: [&[u8]; 2] = [b"do", b"if"];

const THREE: [&[u8]; 6] = [b"def", b"for", b"new", b"try", b"val", b"var"];

const FOUR: [&[u8]; 8] = [
    b"case", b"else", b"lazy", b"null", b"this", b"true", b"type", b"with",
];

const FIVE: [&[u8]; 10] = [
    b"catch", b"class", b"final", b"match", b"super", b"throw", b"trait", b"false", b"while",
    b"yield",
];

const SIX: [&[u8]; 4] = [b"import", b"object", b"return", b"sealed"];

const SEVEN: [&[u8]; 5] = [b"extends", b"finally", b"forSome", b"package", b"private"];

const EIGHT: [&[u8]; 3] = [b"abstract", b"implicit", b"override"];

const NINE: [&[u8]; 1] = [b"protected"];

/// The runs of operator characters that are Marks.
const SIGNS: [&[u8]; 5] = [b":", b"=", b"=>", b"<-", b"@"];

pub fn is_word(name: &[u8]) -> bool
    ensures { result ≡ is_word name.now }
{
    let len = name.len();
    if len < 2 || len > 9 {
        false
    } else if len == 2 {
        TWO.contains(&name)
    } else if len == 3 {
        THREE.contains(&name)
    } else if len == 4 {
        FOUR.contains(&name)
    } else if len == 5 {
        FIVE.contains(&name)
    } else if len == 6 {
        SIX.contains(&name)
    } else if len == 7 {
        SEVEN.contains(&name)
    } else if len == 8 {
        EIGHT.contains(&name)
    } else {
        NINE.contains(&name)
    }
}

pub fn is_sign(run: &[u8]) -> bool
    ensures { result ≡ is_sign run.now }
{
    SIGNS.contains(&run)
}
