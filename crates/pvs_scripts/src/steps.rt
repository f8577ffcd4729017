//! What the next token of a script leads to.

ghost use Rattle.std.specs.Prelude.{◌≡◌, ◌++◌, ◌∷◌, IfOk, []};
ghost use Rattle.pvs_scripts.specs.Grammar.{antecedent_number};
ghost use Rattle.pvs_scripts.specs.Grammar as grammar;
ghost use Rattle.pvs_scripts.specs.code.States as spec;

use crate::lexeme::{LexemeKind, Terminal};
use crate::state::{Nest, OpenTree, Prefix, State};
use crate::tree::{Argument, ScriptTree, StepExpr};
use pvs_base::{MAX_LEVEL, Pos};
use pvs_syntax::Word;
use sqlite_items::Items;
use std::alloc::{AllocError, Global};

/// The number of the antecedent with this one.
fn antecedent(number: u32) -> i64
    ensures { result ≡ antecedent_number number }
{
    -(number as i64)
}

fn empty_tree(alloc: Global) -> OpenTree
    ensures { result ≡ spec.tree_of [] [] }
{
    OpenTree {
        steps: Items::new(alloc),
        trees: Items::new(alloc),
    }
}

/// The same trees, with something else after the last whole part.
fn with_prefix(outer: Items<OpenTree>, tree: OpenTree, prefix: Prefix) -> State
    ensures { result ≡ spec.inside outer tree prefix }
{
    State::Inside(Nest {
        outer,
        tree,
        prefix,
    })
}

fn start(alloc: Global, kind: LexemeKind) -> Option<State>
    ensures { result ≡ spec.first_state kind }
{
    match kind {
        LexemeKind::Open => Some(with_prefix(
            Items::new(alloc),
            empty_tree(alloc),
            Prefix::Nothing,
        )),
        _ => None,
    }
}

/// The innermost tree ends: it is the whole script, or one of the trees of the one around it.
#[tactic(auto, using(crate::proofs::Stacks::last_push))]
fn end_tree(outer: Items<OpenTree>, tree: OpenTree) -> Result<State, AllocError>
    ensures { IfOk result (λ s. s ≡ spec.state_after outer (spec.script_of tree)) }
{
    let mut outer = outer;
    let script = ScriptTree {
        steps: tree.steps,
        trees: tree.trees,
    };
    let Some(mut parent) = outer.pop() else {
        return Ok(State::Whole(script));
    };
    parent.trees.push(script)?;
    Ok(with_prefix(outer, parent, Prefix::Nothing))
}

/// After the parenthesis of a tree, or a whole part of it, a step or a tree may begin, and a
/// tree with a step may end.
fn after_whole(
    outer: Items<OpenTree>,
    tree: OpenTree,
    token: &Terminal,
) -> Result<Option<State>, AllocError>
    ensures { IfOk result (λ s. s ≡ spec.after_whole token.now outer tree token.now.lexeme.kind) }
{
    match token.lexeme.kind {
        LexemeKind::Open => {
            let prefix = Prefix::Opened(token.lexeme.word.pos);
            Ok(Some(with_prefix(outer, tree, prefix)))
        }
        LexemeKind::Close => match tree.steps.as_slice() {
            [] => Ok(None),
            [_, ..] => {
                let state = end_tree(outer, tree)?;
                Ok(Some(state))
            }
        },
        _ => Ok(None),
    }
}

/// A step goes on, which stands before all trees.
fn in_step(outer: Items<OpenTree>, tree: OpenTree, prefix: Prefix) -> Option<State>
    ensures { result ≡ spec.in_step outer tree prefix tree.trees }
{
    match tree.trees.as_slice() {
        [] => Some(with_prefix(outer, tree, prefix)),
        [_, ..] => None,
    }
}

/// A tree begins, which stands after a step: two parentheses.
fn in_tree(
    alloc: Global,
    outer: Items<OpenTree>,
    tree: OpenTree,
    pos: Pos,
) -> Result<Option<State>, AllocError>
    ensures { IfOk result (λ s. s ≡ spec.in_tree outer tree pos tree.steps) }
{
    if tree.steps.as_slice().is_empty() {
        return Ok(None);
    }
    let mut outer = outer;
    outer.push(tree)?;
    let inner = empty_tree(alloc);
    Ok(Some(with_prefix(outer, inner, Prefix::Opened(pos))))
}

/// A step with this word, whose parenthesis has a place.
fn first_word(alloc: Global, word: Word, pos: Pos) -> StepExpr
    ensures { result ≡ spec.step_of word [] pos }
{
    StepExpr {
        word,
        arguments: Items::new(alloc),
        pos,
    }
}

/// After a further parenthesis in a tree.
fn after_open(
    alloc: Global,
    outer: Items<OpenTree>,
    tree: OpenTree,
    pos: Pos,
    token: &Terminal,
) -> Result<Option<State>, AllocError>
    ensures { IfOk result (λ s. s ≡ spec.after_open token.now outer tree pos token.now.lexeme.kind) }
{
    match token.lexeme.kind {
        LexemeKind::Word => {
            let step = first_word(alloc, token.lexeme.word, pos);
            Ok(in_step(outer, tree, Prefix::Step(step)))
        }
        LexemeKind::Open => in_tree(alloc, outer, tree, token.lexeme.word.pos),
        _ => Ok(None),
    }
}

/// A further argument of a step.
fn argued(
    outer: Items<OpenTree>,
    tree: OpenTree,
    step: StepExpr,
    argument: Argument,
) -> Result<Option<State>, AllocError>
    ensures { IfOk result (λ s. s ≡ spec.argued outer tree step argument) }
{
    let mut step = step;
    step.arguments.push(argument)?;
    Ok(Some(with_prefix(outer, tree, Prefix::Step(step))))
}

/// The end of a step.
fn end_step(
    outer: Items<OpenTree>,
    tree: OpenTree,
    step: StepExpr,
) -> Result<Option<State>, AllocError>
    ensures { IfOk result (λ s. s ≡ spec.at outer (spec.with_step tree step) Prefix.Nothing) }
{
    let mut tree = tree;
    tree.steps.push(step)?;
    Ok(Some(with_prefix(outer, tree, Prefix::Nothing)))
}

/// A quoted text, which holds an expression.
fn quoted(
    outer: Items<OpenTree>,
    tree: OpenTree,
    step: StepExpr,
    token: Terminal,
) -> Result<Option<State>, AllocError>
    ensures { IfOk result (λ s. s ≡ spec.quoted token outer tree step token.quote) }
{
    let Terminal { lexeme, quote } = token;
    match quote {
        Some(expr) => argued(
            outer,
            tree,
            step,
            Argument::QuotedExpr(expr, lexeme.word.pos),
        ),
        None => Ok(None),
    }
}

/// After the word or an argument of a step.
fn after_argument(
    outer: Items<OpenTree>,
    tree: OpenTree,
    step: StepExpr,
    token: Terminal,
) -> Result<Option<State>, AllocError>
    ensures { IfOk result (λ s. s ≡ spec.after_argument token outer tree step token.lexeme.kind) }
{
    let word = token.lexeme.word;
    match token.lexeme.kind {
        LexemeKind::Number(number) => argued(
            outer,
            tree,
            step,
            Argument::Signed(number as i64, word.pos),
        ),
        LexemeKind::Minus => {
            let prefix = Prefix::Minus(step, word.pos);
            Ok(Some(with_prefix(outer, tree, prefix)))
        }
        LexemeKind::Quoted => quoted(outer, tree, step, token),
        LexemeKind::Word => argued(outer, tree, step, Argument::Plain(word)),
        LexemeKind::Close => end_step(outer, tree, step),
        LexemeKind::Open | LexemeKind::Other => Ok(None),
    }
}

/// After a minus sign, which has a place.
fn after_minus(
    outer: Items<OpenTree>,
    tree: OpenTree,
    step: StepExpr,
    pos: Pos,
    kind: LexemeKind,
) -> Result<Option<State>, AllocError>
    ensures { IfOk result (λ s. s ≡ spec.after_minus outer tree step pos kind) }
{
    match kind {
        LexemeKind::Number(number) => argued(
            outer,
            tree,
            step,
            Argument::Signed(antecedent(number), pos),
        ),
        _ => Ok(None),
    }
}

fn next_inside(alloc: Global, nest: Nest, token: Terminal) -> Result<Option<State>, AllocError>
    ensures { IfOk result (λ s. s ≡ spec.next_inside token nest.outer nest.tree nest.prefix) }
{
    let Nest {
        outer,
        tree,
        prefix,
    } = nest;
    match prefix {
        Prefix::Nothing => after_whole(outer, tree, &token),
        Prefix::Opened(pos) => after_open(alloc, outer, tree, pos, &token),
        Prefix::Step(step) => after_argument(outer, tree, step, token),
        Prefix::Minus(step, pos) => after_minus(outer, tree, step, pos, token.lexeme.kind),
    }
}

/// What a token leads to. None: it can't come.
pub fn next_state(alloc: Global, state: State, token: Terminal) -> Result<Option<State>, AllocError>
    ensures { IfOk result (λ s. s ≡ spec.next_state state token) }
{
    match state {
        State::Start => Ok(start(alloc, token.lexeme.kind)),
        State::Inside(nest) => next_inside(alloc, nest, token),
        State::Whole(_) => Ok(None),
    }
}

/// Whether a quoted text may come next.
pub fn takes_quote(state: &State) -> bool
    ensures { result ≡ spec.takes_quote state.now }
{
    match state {
        State::Start | State::Whole(_) => false,
        State::Inside(nest) => match &nest.prefix {
            Prefix::Step(_) => true,
            Prefix::Nothing | Prefix::Opened(_) | Prefix::Minus(_, _) => false,
        },
    }
}

/// How many parentheses the prefix of a part leaves open.
fn prefix_depth(prefix: &Prefix) -> usize
    ensures { result ≡ spec.prefix_depth prefix.now }
{
    match prefix {
        Prefix::Nothing => 0,
        Prefix::Opened(_) | Prefix::Step(_) | Prefix::Minus(_, _) => 1,
    }
}

/// Whether more than `MAX_LEVEL` parentheses are open.
pub fn is_deep(state: &State) -> bool
    ensures { result ≡ spec.is_deep state.now }
{
    match state {
        State::Start | State::Whole(_) => false,
        State::Inside(nest) => {
            let outer = nest.outer.len();
            outer >= MAX_LEVEL || outer + 1 + prefix_depth(&nest.prefix) > MAX_LEVEL
        }
    }
}
