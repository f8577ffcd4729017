//! What the next token of a script leads to.

ghost use Rattle.std.specs.Prelude.{◌≡◌, IfOk, []};
ghost use Rattle.pvs_script.specs.Grammar.{antecedent_number};
ghost use Rattle.pvs_script.specs.code.States as spec;

use crate::lexeme::{Lexeme, Sort};
use crate::state::{Nest, OpenTree, Prefix, State};
use crate::tree::{Rule, Script, Step};
use pvs_base::{MAX_LEVEL, Pos};
use sqlite_items::Items;
use std::alloc::{AllocError, Global};

/// The number of the antecedent with this one.
fn antecedent(number: u32) -> i64
    ensures { result ≡ antecedent_number number }
{
    -(number as i64)
}

fn empty_tree(alloc: Global) -> OpenTree
    ensures { result ≡ spec.tree_of [] [] }
{
    OpenTree {
        steps: Items::new(alloc),
        trees: Items::new(alloc),
    }
}

/// The same trees, with something else after the last whole part.
fn with_prefix(nest: Nest, prefix: Prefix) -> Option<State>
    ensures { result ≡ spec.at nest.outer nest.tree prefix }
{
    Some(State::Inside(Nest { prefix, ..nest }))
}

fn start(alloc: Global, token: &Lexeme) -> Option<State>
    ensures { result ≡ spec.first_state token.now.sort }
{
    match token.sort {
        Sort::Open => Some(State::Inside(Nest {
            outer: Items::new(alloc),
            tree: empty_tree(alloc),
            prefix: Prefix::Nothing,
        })),
        _ => None,
    }
}

/// The innermost tree ends: it is the whole script, or one of the trees of the one around it.
#[tactic(auto, using(crate::proofs::Stacks::last_push))]
fn end_tree(nest: Nest) -> Result<State, AllocError>
    ensures { IfOk result (λ s. s ≡ spec.state_after nest.outer (spec.script_of nest.tree)) }
{
    let Nest {
        mut outer,
        tree,
        ..
    } = nest;
    let script = Script {
        steps: tree.steps,
        trees: tree.trees,
    };
    let Some(mut parent) = outer.pop() else {
        return Ok(State::Whole(script));
    };
    parent.trees.push(script)?;
    Ok(State::Inside(Nest {
        outer,
        tree: parent,
        prefix: Prefix::Nothing,
    }))
}

/// After the parenthesis of a tree, or a whole part of it, a step or a tree may begin, and a
/// tree with a step may end.
fn after_whole(nest: Nest, token: &Lexeme) -> Result<Option<State>, AllocError>
    ensures { IfOk result (λ s. s ≡ spec.after_whole token.now nest.outer nest.tree token.now.sort) }
{
    match token.sort {
        Sort::Open => Ok(with_prefix(nest, Prefix::Opened(token.pos))),
        Sort::Close => match nest.tree.steps.as_slice() {
            [] => Ok(None),
            [_, ..] => {
                let state = end_tree(nest)?;
                Ok(Some(state))
            }
        },
        _ => Ok(None),
    }
}

/// A step goes on, which stands before all trees.
fn in_step(nest: Nest, prefix: Prefix) -> Option<State>
    ensures { result ≡ spec.in_step nest.outer nest.tree prefix nest.tree.trees }
{
    match nest.tree.trees.as_slice() {
        [] => with_prefix(nest, prefix),
        [_, ..] => None,
    }
}

/// A tree begins, which stands after a step: two parentheses.
fn in_tree(alloc: Global, nest: Nest, pos: Pos) -> Result<Option<State>, AllocError>
    ensures { IfOk result (λ s. s ≡ spec.in_tree nest.outer nest.tree pos nest.tree.steps) }
{
    if nest.tree.steps.as_slice().is_empty() {
        return Ok(None);
    }
    let Nest {
        mut outer,
        tree,
        ..
    } = nest;
    outer.push(tree)?;
    Ok(Some(State::Inside(Nest {
        outer,
        tree: empty_tree(alloc),
        prefix: Prefix::Opened(pos),
    })))
}

/// After a further parenthesis in a tree.
fn after_open(
    alloc: Global,
    nest: Nest,
    pos: Pos,
    token: &Lexeme,
) -> Result<Option<State>, AllocError>
    ensures { IfOk result (λ s. s ≡ spec.after_open token.now nest.outer nest.tree pos token.now.sort) }
{
    match token.sort {
        Sort::Axiom => {
            let rule = Rule::Axiom;
            Ok(in_step(nest, Prefix::Step(Step { rule, pos })))
        }
        Sort::If => Ok(in_step(nest, Prefix::If(pos))),
        Sort::Open => in_tree(alloc, nest, token.pos),
        _ => Ok(None),
    }
}

/// After `if`.
fn after_if(nest: Nest, pos: Pos, token: &Lexeme) -> Option<State>
    ensures { result ≡ spec.after_if token.now nest.outer nest.tree pos token.now.sort }
{
    match token.sort {
        Sort::Number => {
            let rule = Rule::If(token.number as i64);
            with_prefix(nest, Prefix::Step(Step { rule, pos }))
        }
        Sort::Minus => with_prefix(nest, Prefix::Minus(pos)),
        _ => None,
    }
}

/// After `if` and a minus sign.
fn after_minus(nest: Nest, pos: Pos, token: &Lexeme) -> Option<State>
    ensures { result ≡ spec.after_minus token.now nest.outer nest.tree pos token.now.sort }
{
    match token.sort {
        Sort::Number => {
            let rule = Rule::If(antecedent(token.number));
            with_prefix(nest, Prefix::Step(Step { rule, pos }))
        }
        _ => None,
    }
}

/// After all of a step but its closing parenthesis.
fn after_step(nest: Nest, step: Step, token: &Lexeme) -> Result<Option<State>, AllocError>
    ensures { IfOk result (λ s. s ≡ spec.after_step nest.outer nest.tree step token.now.sort) }
{
    match token.sort {
        Sort::Close => {
            let Nest {
                outer,
                mut tree,
                ..
            } = nest;
            tree.steps.push(step)?;
            Ok(Some(State::Inside(Nest {
                outer,
                tree,
                prefix: Prefix::Nothing,
            })))
        }
        _ => Ok(None),
    }
}

fn next_inside(alloc: Global, nest: Nest, token: &Lexeme) -> Result<Option<State>, AllocError>
    ensures { IfOk result (λ s. s ≡ spec.next_inside token.now nest.outer nest.tree nest.prefix) }
{
    match nest.prefix {
        Prefix::Nothing => after_whole(nest, token),
        Prefix::Opened(pos) => after_open(alloc, nest, pos, token),
        Prefix::If(pos) => Ok(after_if(nest, pos, token)),
        Prefix::Minus(pos) => Ok(after_minus(nest, pos, token)),
        Prefix::Step(step) => after_step(nest, step, token),
    }
}

/// What a token leads to. None: it can't come.
pub fn next_state(alloc: Global, state: State, token: &Lexeme) -> Result<Option<State>, AllocError>
    ensures { IfOk result (λ s. s ≡ spec.next_state state token.now) }
{
    match state {
        State::Start => Ok(start(alloc, token)),
        State::Inside(nest) => next_inside(alloc, nest, token),
        State::Whole(_) => Ok(None),
    }
}

/// How many parentheses the prefix of a part leaves open.
fn prefix_depth(prefix: Prefix) -> usize
    ensures { result ≡ spec.prefix_depth prefix }
{
    match prefix {
        Prefix::Nothing => 0,
        Prefix::Opened(_) | Prefix::If(_) | Prefix::Minus(_) | Prefix::Step(_) => 1,
    }
}

/// Whether more than `MAX_LEVEL` parentheses are open.
pub fn is_deep(state: &State) -> bool
    ensures { result ≡ spec.is_deep state.now }
{
    match state {
        State::Start | State::Whole(_) => false,
        State::Inside(nest) => {
            let outer = nest.outer.len();
            outer >= MAX_LEVEL || outer + 1 + prefix_depth(nest.prefix) > MAX_LEVEL
        }
    }
}
