//! The words that no name of a C file's own may be.
ghost use Rattle.std.specs.Prelude.{◌≡◌, map, codes};
ghost use Rattle.c_tree.specs.Names.Words.{same_name, is_in, starts_with, is_own, is_keyword};
ghost use Rattle.c_tree.specs.Names.Words.{is_integer_type, is_listed, is_word};

/// The keywords of types.
const TYPE_KEYWORDS: [&str; 12] = [
    "char", "double", "enum", "float", "int", "long", "short", "signed", "struct", "union",
    "unsigned", "void",
];

/// The keywords of statements.
const STATEMENT_KEYWORDS: [&str; 12] = [
    "break", "case", "continue", "default", "do", "else", "for", "goto", "if", "return", "switch",
    "while",
];

/// The other keywords.
const OTHER_KEYWORDS: [&str; 10] = [
    "auto", "const", "extern", "inline", "register", "restrict", "sizeof", "static", "typedef",
    "volatile",
];

/// What the headers and the entry of a program are called.
const LIBRARY_WORDS: [&str; 5] = ["NULL", "main", "malloc", "free", "size_t"];

/// The integer types of exact width.
const EXACT_TYPES: [&str; 8] = [
    "int8_t", "int16_t", "int32_t", "int64_t", "uint8_t", "uint16_t", "uint32_t", "uint64_t",
];

/// The integer types of at least a width.
const LEAST_TYPES: [&str; 8] = [
    "int_least8_t",
    "int_least16_t",
    "int_least32_t",
    "int_least64_t",
    "uint_least8_t",
    "uint_least16_t",
    "uint_least32_t",
    "uint_least64_t",
];

/// The fastest integer types.
const FAST_TYPES: [&str; 8] = [
    "int_fast8_t",
    "int_fast16_t",
    "int_fast32_t",
    "int_fast64_t",
    "uint_fast8_t",
    "uint_fast16_t",
    "uint_fast32_t",
    "uint_fast64_t",
];

/// The integer types for pointers, and the greatest ones.
const GREATEST_TYPES: [&str; 4] = ["intptr_t", "uintptr_t", "intmax_t", "uintmax_t"];

/// Whether two names are the same. Most differ in length, which is tested first.
pub(crate) fn is_same(word: &str, x: &str) -> bool
    ensures { result ≡ same_name word.now x.now }
{
    word.len() == x.len() && word == x
}

/// Whether the name begins with those bytes.
fn begins_with(p: &[u8], x: &[u8]) -> bool
    ensures { result ≡ starts_with p.now x.now }
{
    let [a, p @ ..] = p else {
        return true;
    };
    let [b, x @ ..] = x else {
        return false;
    };
    *a == *b && begins_with(p, x)
}

/// Whether the name begins with `_` or `exo_`.
pub(crate) fn is_own(x: &str) -> bool
    ensures { result ≡ is_own x.now }
{
    begins_with(b"_", x.as_bytes()) || begins_with(b"exo_", x.as_bytes())
}

/// Whether it is one of the words.
fn is_one_of(words: &[&str], x: &str) -> bool
    ensures { result ≡ is_in (map (λ word. word.now) words.now) x.now }
{
    for word in words {
        if is_same(word, x) {
            return true;
        }
    }
    false
}

/// Whether it is a keyword.
fn is_keyword(x: &str) -> bool
    ensures { result ≡ is_keyword x.now }
{
    is_one_of(&TYPE_KEYWORDS, x)
        || is_one_of(&STATEMENT_KEYWORDS, x)
        || is_one_of(&OTHER_KEYWORDS, x)
}

/// Whether it is an integer type of `<stdint.h>`.
fn is_integer_type(x: &str) -> bool
    ensures { result ≡ is_integer_type x.now }
{
    is_one_of(&EXACT_TYPES, x)
        || is_one_of(&LEAST_TYPES, x)
        || is_one_of(&FAST_TYPES, x)
        || is_one_of(&GREATEST_TYPES, x)
}

/// Whether the name stands in the lists of words.
fn is_listed(x: &str) -> bool
    ensures { result ≡ is_listed x.now }
{
    is_own(x) || is_keyword(x) || is_one_of(&LIBRARY_WORDS, x) || is_integer_type(x)
}

/// Whether C or this program's text has the name for something else: a keyword of C11, `NULL`, `main`, `malloc`, `free`,
/// `size_t`, a type of `<stdint.h>`, or a name that begins with `_` or `exo_`.
pub fn is_word(x: &str) -> bool
    ensures { result ≡ is_word x.now }
{
    is_listed(x)
}
