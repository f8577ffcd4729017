//! Which word is a keyword.

ghost use Rattle.std.specs.Prelude.{◌≡◌, map};
ghost use Rattle.std.specs.Str.{str_eq_ignore_ascii_case};
ghost use Rattle.pvs_lexer.specs.Keywords.{keyword_of, find};

use crate::words::Keyword;

const KEYWORDS: [(&[u8], Keyword); 61] = [
    (b"AND", Keyword::And),
    (b"ASSUMING", Keyword::Assuming),
    (b"ASSUMPTION", Keyword::Assumption),
    (b"AXIOM", Keyword::Axiom),
    (b"BEGIN", Keyword::Begin),
    (b"CHALLENGE", Keyword::Challenge),
    (b"CLAIM", Keyword::Claim),
    (b"CONJECTURE", Keyword::Conjecture),
    (b"COROLLARY", Keyword::Corollary),
    (b"ELSE", Keyword::Else),
    (b"ELSIF", Keyword::Elsif),
    (b"END", Keyword::End),
    (b"ENDASSUMING", Keyword::EndAssuming),
    (b"ENDIF", Keyword::EndIf),
    (b"EXISTS", Keyword::Exists),
    (b"FACT", Keyword::Fact),
    (b"FALSE", Keyword::False),
    (b"FORALL", Keyword::Forall),
    (b"FORMULA", Keyword::Formula),
    (b"IF", Keyword::If),
    (b"IFF", Keyword::Iff),
    (b"IMPLIES", Keyword::Implies),
    (b"IMPORTING", Keyword::Importing),
    (b"IN", Keyword::In),
    (b"LAMBDA", Keyword::Lambda),
    (b"LAW", Keyword::Law),
    (b"LEMMA", Keyword::Lemma),
    (b"LET", Keyword::Let),
    (b"NONEMPTY_TYPE", Keyword::NonemptyType),
    (b"NOT", Keyword::Not),
    (b"OBLIGATION", Keyword::Obligation),
    (b"OR", Keyword::Or),
    (b"POSTULATE", Keyword::Postulate),
    (b"PROPOSITION", Keyword::Proposition),
    (b"SUBLEMMA", Keyword::Sublemma),
    (b"THEN", Keyword::Then),
    (b"THEOREM", Keyword::Theorem),
    (b"THEORY", Keyword::Theory),
    (b"TRUE", Keyword::True),
    (b"TYPE", Keyword::Type),
    (b"VAR", Keyword::Var),
    (b"CASES", Keyword::Cases),
    (b"CODATATYPE", Keyword::Codatatype),
    (b"COND", Keyword::Cond),
    (b"CONVERSION", Keyword::Conversion),
    (b"DATATYPE", Keyword::Datatype),
    (b"EXPORTING", Keyword::Exporting),
    (b"FROM", Keyword::From),
    (b"HAS_TYPE", Keyword::HasType),
    (b"INDUCTIVE", Keyword::Inductive),
    (b"JUDGEMENT", Keyword::Judgement),
    (b"LIBRARY", Keyword::Library),
    (b"MACRO", Keyword::Macro),
    (b"MEASURE", Keyword::Measure),
    (b"RECURSIVE", Keyword::Recursive),
    (b"SUBTYPE_OF", Keyword::SubtypeOf),
    (b"TABLE", Keyword::Table),
    (b"WHEN", Keyword::When),
    (b"WHERE", Keyword::Where),
    (b"WITH", Keyword::With),
    (b"XOR", Keyword::Xor),
];

fn same_word(a: &[u8], b: &[u8]) -> bool
    ensures { result ≡ str_eq_ignore_ascii_case a.now b.now }
{
    a.eq_ignore_ascii_case(b)
}

/// Which keyword a word is, in any case of its letters. A word that is none is an identifier.
/// This takes no memory.
#[tactic(auto, unfolding(crate::specs::Keywords::keyword_of))]
pub fn keyword(word: &[u8]) -> Option<Keyword>
    ensures { result ≡ keyword_of word.now }
{
    find_in(&KEYWORDS, word)
}

fn find_in(mut table: &[(&[u8], Keyword)], word: &[u8]) -> Option<Keyword>
    ensures { result ≡ find (map (λ k. (k.0.now, k.1)) table.entry.now) word.now }
{
    while let [entry, rest @ ..] = table {
        if same_word(entry.0, word) {
            return Some(entry.1);
        }
        table = rest;
    }
    None
}
