//! Expressions and types.

use super::{Kind, shown_expr, wrong};
use pvs_base::Pos;
use pvs_parser::parse_expr;
use std::alloc::{AllocError, Global};
use std::test::Fail;

/// Terms and operators, each pair of them.
const TERMS: &str = "\
TRUE ~> (T)
false ~> (F)
x ~> x
proof ~> proof
th.x ~> th.x
th[a].x ~> th[a].x
proof.proof ~> proof.proof
th[[a -> b], {x: t | p}, (c), d].y(z) ~> (th[type (-> :a b)][type (sub x:t p)][(paren c)][d].y z)
(a) ~> (paren a)
(a, b) ~> (, a b)
f(a, b) ~> (f a b)
f(a)(b) ~> ((f a) b)
x`1`22 ~> (`22 (`1 x))
f(a)`1 ~> (`1 (f a))
x`1(a)`2 ~> (`2 ((`1 x) a))
(a, b)`2 ~> (`2 (, a b))
(f)(a) ~> ((paren f) a)
IF a THEN b ELSE c ENDIF(x) ~> ((if a b c) x)
IF a THEN b ELSIF c THEN d ELSE e ENDIF ~> (if a b (if c d e))
v!1(s!2) ~> (v!1 s!2)
a AND b AND c ~> (& a (& b c))
a OR b OR c ~> (| a (| b c))
a IMPLIES b IMPLIES c ~> (=> a (=> b c))
a IFF b IFF c ~> (<=> a (<=> b c))
a = b = c ~> (= (= a b) c)
a /= b = c ~> (= (/= a b) c)
a = b /= c ~> (/= (= a b) c)
a /= b /= c ~> (/= (/= a b) c)
a AND b OR c ~> (| (& a b) c)
a OR b AND c ~> (| a (& b c))
a AND b => c ~> (=> (& a b) c)
a => b AND c ~> (=> a (& b c))
a AND b <=> c ~> (<=> (& a b) c)
a <=> b AND c ~> (<=> a (& b c))
a OR b => c ~> (=> (| a b) c)
a => b OR c ~> (=> a (| b c))
a OR b <=> c ~> (<=> (| a b) c)
a <=> b OR c ~> (<=> a (| b c))
a => b <=> c ~> (<=> (=> a b) c)
a <=> b => c ~> (<=> a (=> b c))
a = b AND c ~> (& (= a b) c)
a AND b = c ~> (& a (= b c))
a OR b = c ~> (| a (= b c))
a = b OR c ~> (| (= a b) c)
a => b = c ~> (=> a (= b c))
a = b => c ~> (=> (= a b) c)
a <=> b = c ~> (<=> a (= b c))
a = b <=> c ~> (<=> (= a b) c)
a AND b /= c ~> (& a (/= b c))
a /= b AND c ~> (& (/= a b) c)
a OR b /= c ~> (| a (/= b c))
a /= b OR c ~> (| (/= a b) c)
a => b /= c ~> (=> a (/= b c))
a /= b => c ~> (=> (/= a b) c)
a <=> b /= c ~> (<=> a (/= b c))
a /= b <=> c ~> (<=> (/= a b) c)
a & b /\\ c \\/ d ~> (| (& a (& b c)) d)
NOT a = b ~> (~ (= a b))
NOT a AND b ~> (& (~ a) b)
NOT NOT a ~> (~ (~ a))
a = NOT b = c ~> (= a (~ (= b c)))
a = NOT b AND c ~> (& (= a (~ b)) c)
a /= b = NOT NOT c ~> (= (/= a b) (~ (~ c)))
";

/// Binders, LET, and types.
const BINDERS: &str = "\
FORALL x: a AND b ~> (all x (& a b))
a AND FORALL x: b OR c ~> (& a (all x (| b c)))
a AND LET x = b IN c AND d ~> (& a (let x=b (& c d)))
a OR EXISTS x: b OR c ~> (| a (some x (| b c)))
a OR LET x = b IN c => d ~> (| a (let x=b (=> c d)))
a => FORALL x: b => c ~> (=> a (all x (=> b c)))
a => LET x = b IN c <=> d ~> (=> a (let x=b (<=> c d)))
a <=> LAMBDA x: b <=> c ~> (<=> a (fun x (<=> b c)))
a <=> LET x = b IN c <=> d ~> (<=> a (let x=b (<=> c d)))
a = b = LET x = c IN d AND e ~> (= (= a b) (let x=c (& d e)))
a /= FORALL x: b = c ~> (/= a (all x (= b c)))
NOT EXISTS x, y: p ~> (~ (some x y p))
a = LAMBDA x: b IFF c ~> (= a (fun x (<=> b c)))
FORALL (x: t, y, z: [a -> b]): p ~> (all x:t y z:(-> :a b) p)
LAMBDA (x): x ~> (fun x x)
LET x = a = b, y: [t, u] = c IN x ~> (let x=(= a b) y:(* :t :u)=c x)
EXISTS (x: [y: a, b -> [c, d, z: e]]): p ~> (some x:(-> y:a :b (* :c :d z:e)) p)
EXISTS (x: {y: (q) | r}, z: th[a].t): p ~> (some x:(sub y:(pred q) r) z:th[a].t p)
";

/// The column of a form's first token stands after `@`.
const PLACES: &str = "\
NOT x = TRUE ~> (~@1 (= x (T@9)))
(x)((y, FALSE)) ~> ((paren@1 x) (,@5 y (F@9)))
IF x THEN y ELSIF z THEN w ELSE v ENDIF ~> (if@1 x y (if@13 z w v))
x OR EXISTS (y: (p)): LAMBDA z: w ~> (| x (some@6 y:(pred@17 p) (fun@23 z w)))
LET x: [a, {b: c | d}] = y IN x ~> (let@1 x:(*@8 :a :(sub@12 b:c d))=y x)
f(t[[a -> b]].x) ~> (f t[type (->@5 :a b)].x)
";

/// Neighbours of expressions.
const FAULTS: &str = "\
\x20~> Unexpected@1:1
a AND ~> Unexpected@1:6
a b ~> Unexpected@1:3
() ~> Unexpected@1:2
(a,) ~> Unexpected@1:4
(a ~> Unexpected@1:3
f(a,, b) ~> Unexpected@1:5
a = = b ~> Unexpected@1:5
th[a] ~> Unexpected@1:6
th[].x ~> Unexpected@1:4
th[a b].x ~> Unexpected@1:6
th.1 ~> OutOfProfile@1:4
x`y ~> Unexpected@1:3
x` ~> Unexpected@1:3
IF a THEN b ENDIF ~> Unexpected@1:13
IF a ELSE b ENDIF ~> Unexpected@1:6
NOT ~> Unexpected@1:4
AND a ~> Unexpected@1:1
a AND AND b ~> Unexpected@1:7
f() ~> Unexpected@1:3
f(a b) ~> Unexpected@1:5
(a b) ~> Unexpected@1:4
IF THEN b ~> Unexpected@1:4
IF a b ~> Unexpected@1:6
IF a THEN b ELSE c ~> Unexpected@1:19
IF a THEN b ELSIF c ELSE d ENDIF ~> Unexpected@1:21
FORALL : p ~> Unexpected@1:8
FORALL x, y p ~> Unexpected@1:13
FORALL (x p): q ~> Unexpected@1:11
FORALL x: ~> Unexpected@1:10
FORALL (): p ~> Unexpected@1:9
FORALL (x, ): p ~> Unexpected@1:12
FORALL x, : p ~> Unexpected@1:11
FORALL x: t: p ~> Unexpected@1:12
FORALL (x: [a]): p ~> Unexpected@1:14
FORALL (x: {y | p}): q ~> Unexpected@1:15
FORALL (x: {y: t}): q ~> Unexpected@1:17
LET = a IN b ~> Unexpected@1:5
LET x a IN b ~> Unexpected@1:7
LET x: = a IN b ~> Unexpected@1:8
LET x = a IN ~> Unexpected@1:13
LET x = a, IN b ~> Unexpected@1:12
LET x = a ~> Unexpected@1:10
a + b ~> OutOfProfile@1:3
a < b ~> OutOfProfile@1:3
a - b ~> OutOfProfile@1:3
1 ~> OutOfProfile@1:1
f(1) ~> OutOfProfile@1:3
\"s\" ~> OutOfProfile@1:1
CASES x ~> OutOfProfile@1:1
a XOR b ~> OutOfProfile@1:3
a # b ~> BadByte@1:3
a b # ~> Unexpected@1:3
(a # ~> BadByte@1:4
a \"b ~> UnclosedQuote@1:3
";

#[test]
fn expressions(rt: HostRuntime) -> Result<(), Fail> {
    let alloc = rt.alloc();
    assert_eq!(rt; wrong(alloc, TERMS, Kind::Expression)?, "");
    assert_eq!(rt; wrong(alloc, BINDERS, Kind::Expression)?, "");
    assert_eq!(rt; wrong(alloc, PLACES, Kind::Placed)?, "");
    assert_eq!(rt; wrong(alloc, FAULTS, Kind::Expression)?, "");
    Ok(())
}

/// Three expressions in quotes.
const QUOTES: &[u8] = b"\"if aa then b elsif c then d else e endif\" \"x =\nNOT (y)\" \"p q\"";

/// Spans of the quotes, each with the place of its first byte, and their trees or first faults.
const SPANS: [(u32, u32, Pos, &str); 3] = [
    (1, 41, Pos { line: 3, col: 9 }, "(if@9 aa b (if@22 c d e))"),
    (44, 55, Pos { line: 3, col: 52 }, "(= x (~@1 (paren@5 y)))"),
    (58, 61, Pos { line: 4, col: 12 }, "Unexpected@4:14"),
];

fn shown_span(alloc: Global, start: u32, end: u32, pos: Pos) -> Result<String, AllocError> {
    if start > end || end as usize > QUOTES.len() || pos.line > 99 || pos.col > 99 {
        return Err(AllocError);
    }
    let read = parse_expr(alloc, QUOTES, start, end, pos);
    shown_expr(alloc, QUOTES, true, &read)
}

#[test]
fn spans_of_texts(rt: HostRuntime) -> Result<(), Fail> {
    for (start, end, pos, want) in SPANS {
        let found = shown_span(rt.alloc(), start, end, pos)?;
        assert_eq!(rt; found.as_str(), want);
    }
    Ok(())
}
