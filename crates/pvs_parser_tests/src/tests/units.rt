//! Declarations, theories, proofs and whole units.

use super::{Kind, shown, wrong};
use pvs_base::MAX_TEXT;
use std::alloc::{AllocError, Global};
use std::test::Fail;

/// Declarations, and neighbours of them.
const DECLARATIONS: &str = "\
IMPORTING a ~> (importing a)
IMPORTING a[b], c ~> (importing a[b])(importing c)
IMPORTING ~> Unexpected@3:1
IMPORTING a, ~> Unexpected@3:1
IMPORTING a[ ~> Unexpected@3:1
IMPORTING a.b ~> Unexpected@2:12
T: TYPE ~> (type T)
T, U: TYPE+ ~> (type+ T)(type+ U)
T, U: NONEMPTY_TYPE ~> (type+ T)(type+ U)
T: TYPE = [U -> V] ~> (type T = (-> :U V))
T, U: TYPE = V ~> Unexpected@2:12
T: TYPE = ~> Unexpected@3:1
T: TYPE+ = U ~> OutOfProfile@2:10
T: NONEMPTY_TYPE = U ~> OutOfProfile@2:18
T: NONEMPTY_TYPE+ ~> OutOfProfile@2:17
x, y: VAR T ~> (var x T)(var y T)
x: VAR ~> Unexpected@3:1
x: VAR TYPE ~> Unexpected@2:8
c: T ~> (const c: T)
c, d: [a, b] ~> (const c: (* :a :b))(const d: (* :a :b))
c: T = e ~> (const c: T = e)
c, d: T = e ~> Unexpected@2:9
f(x: T, y): U = g(x) ~> (const f x:T y: U = (g x))
f(x): U ~> (const f x: U)
f(x)(y): U ~> Unexpected@2:5
f(): U ~> Unexpected@2:3
f, g(x): U ~> Unexpected@2:5
f(x) TYPE ~> Unexpected@2:6
f(x): TYPE ~> Unexpected@2:7
a: AXIOM p ~> (axiom a p)
a: POSTULATE p; b: THEOREM q ~> (axiom a p)(lemma b q)
a: CHALLENGE p b: CLAIM p c: CONJECTURE p d: COROLLARY p e: FACT p f: FORMULA p ~> (lemma a p)(lemma b p)(lemma c p)(lemma d p)(lemma e p)(lemma f p)
g: LAW p h: LEMMA p i: OBLIGATION p j: PROPOSITION p k: SUBLEMMA p l: theorem p ~> (lemma g p)(lemma h p)(lemma i p)(lemma j p)(lemma k p)(lemma l p)
a, b: LEMMA p ~> Unexpected@2:7
a: ASSUMPTION p ~> Unexpected@2:4
a: LEMMA ~> Unexpected@3:1
; T: TYPE ~> Unexpected@2:1
T: TYPE; U: TYPE; ~> (type T)(type U)
T: TYPE;; U: TYPE ~> Unexpected@2:9
x y: T ~> Unexpected@2:3
x,: T ~> Unexpected@2:3
x: T y ~> Unexpected@3:1
c: T = 1 ~> OutOfProfile@2:8
c: T = v!1 ~> Unexpected@2:8
LET: TYPE ~> Unexpected@2:1
proof: TYPE ~> (type proof)
x: DATATYPE ~> OutOfProfile@2:4
";

/// Theories, and neighbours of them.
const THEORIES: &str = "\
\x20~> 
% nothing ~> 
t: THEORY BEGIN END t ~> (theory t [] )
t: THEORY BEGIN END t u: theory begin T: TYPE end u ~> (theory t [] )(theory u [] (type T))
t[T: TYPE, U, V: TYPE+, W: NONEMPTY_TYPE, c, d: [T]]: THEORY BEGIN END t ~> Unexpected@1:51
t[T: TYPE, U, V: TYPE+, W: NONEMPTY_TYPE, c, d: (T)]: THEORY BEGIN END t ~> (theory t(type T)(type+ U)(type+ V)(type+ W)(const c (pred T))(const d (pred T)) [] )
t[]: THEORY BEGIN END t ~> Unexpected@1:3
t[T: TYPE,]: THEORY BEGIN END t ~> Unexpected@1:11
t[T: TYPE = U]: THEORY BEGIN END t ~> Unexpected@1:11
t[T: TYPE+ = U]: THEORY BEGIN END t ~> OutOfProfile@1:12
t[c T]: THEORY BEGIN END t ~> Unexpected@1:5
t[c: ]: THEORY BEGIN END t ~> Unexpected@1:6
t: THEORY END t ~> Unexpected@1:11
t THEORY BEGIN END t ~> Unexpected@1:3
t: BEGIN END t ~> Unexpected@1:4
t ~> Unexpected@1:2
t: THEORY BEGIN ASSUMING x: VAR T; h: ASSUMPTION p IMPORTING a ENDASSUMING c: T END t ~> (theory t [(var x T)(assumption h p)(importing a)] (const c: T))
t: THEORY BEGIN ASSUMING ENDASSUMING END t ~> (theory t [] )
t: THEORY BEGIN ASSUMING c: T ENDASSUMING END t ~> Unexpected@1:29
t: THEORY BEGIN ASSUMING x, y: ASSUMPTION p ENDASSUMING END t ~> Unexpected@1:32
t: THEORY BEGIN ASSUMING f(x): ASSUMPTION p ENDASSUMING END t ~> Unexpected@1:27
t: THEORY BEGIN ASSUMING END t ~> Unexpected@1:26
t: THEORY BEGIN c: T ASSUMING ENDASSUMING END t ~> Unexpected@1:22
t: THEORY BEGIN END u ~> WrongEnd@1:21
t: THEORY BEGIN END T ~> WrongEnd@1:21
t: THEORY BEGIN END ~> Unexpected@1:20
t: THEORY BEGIN END 1 ~> OutOfProfile@1:21
t: THEORY BEGIN END t; ~> Unexpected@1:22
t: THEORY BEGIN END t # ~> BadByte@1:23
t: THEORY BEGIN END u # ~> WrongEnd@1:21
";

/// Proofs, and neighbours of them.
const PROOFS: &str = "\
(proof t.a (a (b) \"c)\" 1))(proof u.proof ()) ~> (proof t.a 11-25@1:12)(proof u.proof 41-43@1:42)
(proof t.a skip) ~> Unexpected@1:12
(proof t.a (skip) ~> Unexpected@1:18
(proof t.a (skip) x) ~> Unexpected@1:19
(proof t.a ((skip) ~> Unexpected@1:19
(proof t (skip)) ~> Unexpected@1:10
(proof .a (skip)) ~> Unexpected@1:8
(Proof t.a (skip)) ~> Unexpected@1:2
(t.a (skip)) ~> Unexpected@1:2
(proof t.1 (skip)) ~> OutOfProfile@1:10
(proof t.a (skip))) ~> Unexpected@1:19
) ~> Unexpected@1:1
\" ~> UnclosedQuote@1:1
";

/// Where the lines of the grammar stop, in its order: after nothing of a line, after its first part,
/// and before its last.
const STOPS: &str = "\
1 ~> OutOfProfile@1:1
THEORY ~> Unexpected@1:1
t; ~> Unexpected@1:2
t: THEORY BEGIN END END ~> Unexpected@1:21
t: THEORY BEGIN END t ] ~> Unexpected@1:23
t[: TYPE ~> Unexpected@1:3
t[c TYPE ~> Unexpected@1:5
t[c: THEORY ~> Unexpected@1:6
t[c d ~> Unexpected@1:5
t[c, : ~> Unexpected@1:6
t: THEORY BEGIN ASSUMING : ~> Unexpected@1:26
t: THEORY BEGIN ASSUMING x VAR ~> Unexpected@1:28
t: THEORY BEGIN ASSUMING x: AXIOM ~> Unexpected@1:29
t: THEORY BEGIN ASSUMING x: VAR ; ~> Unexpected@1:33
t: THEORY BEGIN ASSUMING h: ASSUMPTION ENDASSUMING ~> Unexpected@1:40
t: THEORY IMPORTING ~> Unexpected@1:11
t: THEORY BEGIN IMPORTING BEGIN ~> Unexpected@1:27
t: THEORY BEGIN IMPORTING a, ; ~> Unexpected@1:30
t: THEORY BEGIN IMPORTING a[] ~> Unexpected@1:29
t: THEORY BEGIN IMPORTING a[b; ~> Unexpected@1:30
t: THEORY BEGIN IMPORTING a[b, ] ~> Unexpected@1:32
t: THEORY BEGIN IMPORTING a[TYPE ~> Unexpected@1:29
t: THEORY BEGIN IMPORTING a[[x ] ~> Unexpected@1:32
t: THEORY BEGIN IMPORTING a[{x y ~> Unexpected@1:32
t: THEORY BEGIN TYPE ~> Unexpected@1:17
t: THEORY BEGIN c = ~> Unexpected@1:19
t: THEORY BEGIN c: END ~> Unexpected@1:20
t: THEORY BEGIN T: TYPE = END ~> Unexpected@1:27
t: THEORY BEGIN x: VAR END ~> Unexpected@1:24
t: THEORY BEGIN f(x): T = END ~> Unexpected@1:27
t: THEORY BEGIN l: LEMMA END ~> Unexpected@1:26
t[c: () ~> Unexpected@1:7
t[c: (x, ~> Unexpected@1:8
t[c: {T} ~> Unexpected@1:8
t[c: {x: | ~> Unexpected@1:10
t[c: {x: T} ~> Unexpected@1:11
t[c: {x: T | } ~> Unexpected@1:14
t[c: {x: T | p] ~> Unexpected@1:15
t[c: [: ~> Unexpected@1:7
t[c: [T] ~> Unexpected@1:8
t[c: [T, ] ~> Unexpected@1:10
t[c: [T -> ] ~> Unexpected@1:12
t[c: [T -> T, ~> Unexpected@1:13
t[c: [x: ] ~> Unexpected@1:10
t[c: th. ] ~> Unexpected@1:10
t[c: th[a] ] ~> Unexpected@1:12
t: THEORY BEGIN f( : ~> Unexpected@1:20
t: THEORY BEGIN f(: ~> OutOfProfile@1:18
t: THEORY BEGIN f(x T ~> Unexpected@1:21
t: THEORY BEGIN f(x: ) ~> Unexpected@1:22
(proof t a ~> Unexpected@1:10
(proof t. (skip)) ~> Unexpected@1:11
";

#[test]
fn units(rt: HostRuntime) -> Result<(), Fail> {
    let alloc = rt.alloc();
    assert_eq!(rt; wrong(alloc, DECLARATIONS, Kind::Declarations)?, "");
    assert_eq!(rt; wrong(alloc, THEORIES, Kind::Unit)?, "");
    assert_eq!(rt; wrong(alloc, STOPS, Kind::Unit)?, "");
    assert_eq!(rt; wrong(alloc, PROOFS, Kind::Unit)?, "");
    Ok(())
}

/// Texts of several lines.
const LINES: [(&[u8], Kind, &str); 3] = [
    (b"a AND\n  )", Kind::Expression, "Unexpected@2:3"),
    (b"t: THEORY BEGIN\n# END t", Kind::Unit, "BadByte@2:1"),
    (
        b"t: THEORY BEGIN END t\n(proof t.a (skip))",
        Kind::Unit,
        "(theory t [] )(proof t.a 33-39@2:12)",
    ),
];

#[test]
fn lines(rt: HostRuntime) -> Result<(), Fail> {
    for (text, kind, want) in LINES {
        let found = shown(rt.alloc(), text, kind)?;
        assert_eq!(rt; found.as_str(), want);
    }
    Ok(())
}

/// What is shown of a text of so many spaces.
fn shown_spaces(alloc: Global, count: usize) -> Result<String, AllocError> {
    let text = vec![in alloc; b' '; count]?;
    shown(alloc, &text, Kind::Unit)
}

#[test]
fn length_of_texts(rt: HostRuntime) -> Result<(), Fail> {
    for (count, want) in [(MAX_TEXT, ""), (MAX_TEXT + 1, "TextTooLong@1:1")] {
        let found = shown_spaces(rt.alloc(), count)?;
        assert_eq!(rt; found.as_str(), want);
    }
    Ok(())
}
