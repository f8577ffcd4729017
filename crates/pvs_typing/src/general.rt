//! The most general form of a type.

ghost use Rattle.std.specs.Prelude.{◌≡◌, Ok, OnOk};
ghost use Rattle.pvs_terms.specs.Stored.{IsNode, IsName, PartsIn, node_tree, tree_at};
ghost use Rattle.pvs_terms.specs.Sorts.{HasSorts, IsType};
ghost use Rattle.pvs_sig.specs.Lookups.{IsOrdered};
ghost use Rattle.pvs_types.specs.Forms.{mentions, most};
ghost use Rattle.pvs_typing.specs.Growth.{EachName};
ghost use Rattle.pvs_typing.specs.Answers.{FindsType};
ghost use Rattle.pvs_typing.specs.code.Frames.{AreFramesOf, IsFrameOf, MakesForm, StepsInto, Widens, down_work, frame_result, frame_work, frames_after};
ghost use Rattle.pvs_typing.specs.State.{IsTypeOf};

use crate::fault::TypeFault;
use crate::forms::next_above;
use crate::mentions::mentions;
use crate::nodes::known_node;
use crate::theories::Theories;
use pvs_subst::Context;
use pvs_terms::{Id, Name, Node};
use std::alloc::AllocError;

/// A type around the one that is widened: its other parts.
#[derive(Clone, Copy, Debug, PartialEq, Eq)]
pub(crate) enum Frame {
    /// A function type on this domain, around its range.
    Range(Id),

    /// A tuple type of so many components with this first one, around the others.
    Others(u32, Id),

    /// A tuple type of so many components with these others, around the first.
    First(u32, Id),
}

/// What a step into a type leads to: a frame, if any, and the type inside it that is to be widened, or
/// none where the type is its own most general form.
#[derive(Clone, Copy, Debug, PartialEq, Eq)]
pub(crate) struct Inside {
    pub frame: Option<Frame>,
    pub ty: Option<Id>,
}

/// The number of a node that is a type, whose parts are known.
fn make_type<T: Theories>(theories: &mut T, _theory: Name, node: Node) -> Result<Id, TypeFault>
    requires theory { IsName (T.state theories.old).stored _theory }
    requires parts { PartsIn (T.state theories.old).stored node }
    requires sorted { HasSorts (node_tree (T.state theories.old).stored node) }
    requires ty { IsType (node_tree (T.state theories.old).stored node) }
    requires names { EachName ((T.state theories.old).declares _theory) (node_tree (T.state theories.old).stored node) }
    ensures { MakesForm (T.state theories.old) (T.state theories.new) _theory (λ s. node_tree s node) result }
{
    let made = theories.make(node)?;
    Ok(made)
}

/// A step into a type.
fn enter<T: Theories>(theories: &mut T, theory: Name, ty: Id) -> Result<Inside, TypeFault>
    requires theory { IsName (T.state theories.old).stored theory }
    requires ty { IsTypeOf (T.state theories.old) theory ty }
    requires ordered { IsOrdered ((T.state theories.old).lookups theory) }
    ensures { StepsInto (T.state theories.old) (T.state theories.new) theory ty result }
{
    match known_node(theories, theory, ty) {
        Node::TFun(domain, range) => Ok(Inside {
            frame: Some(Frame::Range(domain)),
            ty: Some(range),
        }),
        Node::TPair(components, first, others) => Ok(Inside {
            frame: Some(Frame::Others(components, first)),
            ty: Some(others),
        }),
        _ => {
            let above = next_above(theories, theory, ty)?;
            Ok(Inside {
                frame: None,
                ty: above,
            })
        }
    }
}

/// Adds a frame, if any.
fn add_frame(frames: &mut Vec<Frame>, frame: Option<Frame>) -> Result<(), AllocError>
    ensures { OnOk result (frames.new.items ≡ frames_after frames.old.items frame) }
{
    if let Some(inner) = frame {
        frames.push(inner)?;
    }
    Ok(())
}

/// The most general form of the innermost type inside, with the frames around it added.
fn descend<T: Theories>(
    theories: &mut T,
    theory: Name,
    frames: &mut Vec<Frame>,
    ty: Id,
) -> Result<Id, TypeFault>
    requires theory { IsName (T.state theories.old).stored theory }
    requires ty { IsTypeOf (T.state theories.old) theory ty }
    requires frames { AreFramesOf (T.state theories.old) theory frames.old.items }
    requires ordered { IsOrdered ((T.state theories.old).lookups theory) }
    ensures { Widens (T.state theories.old) (T.state theories.new) theory frames.old.items frames.new.items (λ s l. most l (tree_at s ty)) (λ s l. down_work l (tree_at s ty)) result }
{
    let mut inner = ty;
    loop {
        let inside = enter(theories, theory, inner)?;
        add_frame(frames, inside.frame)?;
        match inside.ty {
            None => return Ok(inner),
            Some(next) => inner = next,
        }
    }
}

/// A step out of a frame, with the most general form of the type inside.
fn leave<T: Theories>(
    theories: &mut T,
    theory: Name,
    frames: &mut Vec<Frame>,
    frame: Frame,
    made: Id,
) -> Result<Id, TypeFault>
    requires theory { IsName (T.state theories.old).stored theory }
    requires frame { IsFrameOf (T.state theories.old) theory frame }
    requires frames { AreFramesOf (T.state theories.old) theory frames.old.items }
    requires made { IsTypeOf (T.state theories.old) theory made }
    requires ordered { IsOrdered ((T.state theories.old).lookups theory) }
    ensures { Widens (T.state theories.old) (T.state theories.new) theory frames.old.items frames.new.items (λ s l. frame_result l s frame (Ok (tree_at s made))) (λ s l. frame_work l s frame) result }
{
    match frame {
        Frame::Range(domain) => {
            let form = make_type(theories, theory, Node::TFun(domain, made))?;
            Ok(form)
        }
        Frame::First(components, others) => {
            let form = make_type(theories, theory, Node::TPair(components, made, others))?;
            Ok(form)
        }
        Frame::Others(components, first) => {
            if is_mentioned(theories, made) {
                let form = make_type(theories, theory, Node::TPair(components, first, made))?;
                return Ok(form);
            }
            frames.push(Frame::First(components, made))?;
            let form = descend(theories, theory, frames, first)?;
            Ok(form)
        }
    }
}

/// Whether the variable that is bound around a tree occurs in it.
fn is_mentioned<T: Theories>(theories: &T, id: Id) -> bool
    requires { IsNode (T.state theories.now).stored id }
    ensures { result ≡ mentions 0 (tree_at (T.state theories.now).stored id) }
{
    let _depth = theories.store().depth(id);
    mentions(theories.store(), 0, id)
}

/// The most general form of a type.
pub(crate) fn most_of<T: Theories>(theories: &mut T, theory: Name, ty: Id) -> Result<Id, TypeFault>
    requires theory { IsName (T.state theories.old).stored theory }
    requires ty { IsTypeOf (T.state theories.old) theory ty }
    requires ordered { IsOrdered ((T.state theories.old).lookups theory) }
    ensures { FindsType (T.state theories.old) (T.state theories.new) theory (λ s l. most l (tree_at s ty)) result }
{
    let alloc = theories.store().allocator();
    let mut frames = Vec::new(alloc);
    let mut made = descend(theories, theory, &mut frames, ty)?;
    while let Some(frame) = frames.pop() {
        made = leave(theories, theory, &mut frames, frame, made)?;
    }
    Ok(made)
}

/// The most general form of a type: predicate subtypes give way to their supertypes and defined names
/// to their bodies, but for the domains of functions. The first component of a tuple type is widened
/// only where the types of the others do not mention its variable (CSL-97-2, subtypes).
///
/// Refused with TooLarge exactly where a body or a type on the way passes a limit of trees.
pub fn most<T: Theories>(
    theories: &mut T,
    theory: Name,
    _context: &Context,
    ty: Id,
) -> Result<Id, TypeFault>
    requires theory { IsName (T.state theories.old).stored theory }
    requires ty { IsTypeOf (T.state theories.old) theory ty }
    requires ordered { IsOrdered ((T.state theories.old).lookups theory) }
    ensures { FindsType (T.state theories.old) (T.state theories.new) theory (λ s l. most l (tree_at s ty)) result }
{
    let found = most_of(theories, theory, ty)?;
    Ok(found)
}
