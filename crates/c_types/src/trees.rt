// Types as trees, made and taken apart on stacks of their own.
ghost use Rattle.std.specs.Prelude.{◌≡◌, ◌<◌, ◌++◌, ◌∷◌, [], List, All, IfOk, OnOk, length};
ghost use Rattle.meaning_types.specs.Types.{TypeTree, MoreTypes, NoTypes};
ghost use Rattle.c_types.specs.Rows.{AreRows, type_numbered, types_of};
ghost use Rattle.c_types.specs.Trees.{IsStepOver, after_step, after_steps, around, base_of_ctype, made_seen, tree_seen, with_marks, with_parameters};
ghost use Rattle.c_types.specs.declared.trees.Step.TheVariants.{Append, Around, Parameters};

use crate::rows::Rows;
use crate::shapes::{OuterBase, OuterShape};
use sparse_model::{CBase, CType};
use std::alloc::{AllocError, Global};

/// How many steps may wait. Each level of a tree waits in one of its own, and a tree of more levels isn't
/// made: whoever drops it goes down to its last level.
const MOST_WAITING: usize = 10_000;

/// How many steps may be taken. A type that shares its parts has a tree that is far larger than its rows.
const MOST_STEPS: u32 = 100_000_000;

/// A step on the way to a tree.
#[derive(Clone, Copy)]
pub enum Step {
    /// Makes the type with this number.
    Make(u32),
    /// Makes of the last type another one, which has it as its target, its element or its result.
    Around(OuterShape),
    /// Gives the last type, which is a function, the parameters of the one with this number.
    Parameters(u32),
    /// Gives the type before the last, which is a function, the last one as a further parameter.
    Append,
}

impl Rows {
    /// The type as a tree, in as many steps as it has parts. One of more than 10,000 levels, or of more
    /// parts than a memory holds, is want of memory.
    pub fn tree(&self, alloc: Global, number: u32) -> Result<CType, AllocError>
        requires rows { AreRows self.now.rows.entries }
        requires known { number < length (types_of self.now.rows.entries) }
        ensures { IfOk result (λ tree. tree_seen tree ≡ type_numbered (types_of self.now.rows.entries) number) }
    {
        let mut steps = Vec::new(alloc);
        let mut made = Vec::new(alloc);
        steps.push(Step::Make(number))?;
        'steps: for _ in 0..MOST_STEPS {
            let Some(step) = steps.pop() else {
                return Ok(made.pop().unwrap());
            };
            if steps.len() > MOST_WAITING {
                break;
            }
            self.take_step(alloc, step, &mut steps, &mut made)?;
        }
        Err(AllocError)
    }

    // Takes a step, or says by which others it is taken.
    fn take_step(
        &self,
        alloc: Global,
        step: Step,
        steps: &mut Vec<Step>,
        made: &mut Vec<CType>,
    ) -> Result<(), AllocError>
        requires rows { AreRows self.now.rows.entries }
        requires step { IsStepOver (types_of self.now.rows.entries) step }
        requires steps { All (IsStepOver (types_of self.now.rows.entries)) steps.old.items }
        ensures taken { OnOk result (after_steps (types_of self.now.rows.entries) steps.new.items (made_seen made.new.items) ≡ after_steps (types_of self.now.rows.entries) (steps.old.items ++ step ∷ []) (made_seen made.old.items)) }
        ensures known { OnOk result (All (IsStepOver (types_of self.now.rows.entries)) steps.new.items) }
    {
        match step {
            Step::Make(number) => self.begin(number, steps, made),
            Step::Around(outer) => put_around(alloc, outer, made),
            Step::Parameters(number) => self.give_parameters(number, steps),
            Step::Append => append(made),
        }
    }

    // A type without parts is made, another one around its part.
    fn begin(
        &self,
        number: u32,
        steps: &mut Vec<Step>,
        made: &mut Vec<CType>,
    ) -> Result<(), AllocError>
        requires rows { AreRows self.now.rows.entries }
        requires known { number < length (types_of self.now.rows.entries) }
        requires steps { All (IsStepOver (types_of self.now.rows.entries)) steps.old.items }
        ensures taken { OnOk result (after_steps (types_of self.now.rows.entries) steps.new.items (made_seen made.new.items) ≡ after_steps (types_of self.now.rows.entries) steps.old.items (type_numbered (types_of self.now.rows.entries) number ∷ made_seen made.old.items)) }
        ensures known { OnOk result (All (IsStepOver (types_of self.now.rows.entries)) steps.new.items) }
    {
        let outer = self.outer_shape(number);
        match outer.base {
            OuterBase::Void => made.push(with_base(outer, CBase::Void))?,
            OuterBase::Integer(kind, identity) => {
                made.push(with_base(outer, CBase::Integer(kind, identity)))?;
            }
            OuterBase::Aggregate(token, is_union) => {
                made.push(with_base(outer, CBase::Aggregate(token, is_union)))?;
            }
            OuterBase::Pointer(part) => {
                steps.push(Step::Around(outer))?;
                steps.push(Step::Make(part.0))?;
            }
            OuterBase::Array(part, _) => {
                steps.push(Step::Around(outer))?;
                steps.push(Step::Make(part.0))?;
            }
            OuterBase::Function(part, _, _) => {
                steps.push(Step::Parameters(number))?;
                steps.push(Step::Around(outer))?;
                steps.push(Step::Make(part.0))?;
            }
        }
        Ok(())
    }

    // The first parameter is given, and then the others.
    fn give_parameters(&self, number: u32, steps: &mut Vec<Step>) -> Result<(), AllocError>
        requires rows { AreRows self.now.rows.entries }
        requires known { number < length (types_of self.now.rows.entries) }
        requires steps { All (IsStepOver (types_of self.now.rows.entries)) steps.old.items }
        ensures taken { OnOk result ((made : List TypeTree) → after_steps (types_of self.now.rows.entries) steps.new.items made ≡ after_steps (types_of self.now.rows.entries) (steps.old.items ++ Parameters number ∷ []) made) }
        ensures known { OnOk result (All (IsStepOver (types_of self.now.rows.entries)) steps.new.items) }
    {
        if let Some((first, rest)) = self.first_parameter(number) {
            steps.push(Step::Parameters(rest))?;
            steps.push(Step::Append)?;
            steps.push(Step::Make(first))?;
        }
        Ok(())
    }
}

// The last type becomes a part of another one.
fn put_around(alloc: Global, outer: OuterShape, made: &mut Vec<CType>) -> Result<(), AllocError>
    ensures { OnOk result ((types : List TypeTree) → made_seen made.new.items ≡ after_step types (Around outer) (made_seen made.old.items)) }
{
    let Some(part) = made.pop() else {
        return Ok(());
    };
    made.push(around(alloc, outer, part)?)?;
    Ok(())
}

// The last type becomes a parameter of the one before.
fn append(made: &mut Vec<CType>) -> Result<(), AllocError>
    ensures { OnOk result ((types : List TypeTree) → made_seen made.new.items ≡ after_step types Append (made_seen made.old.items)) }
{
    let Some(parameter) = made.pop() else {
        return Ok(());
    };
    let Some(function) = made.pop() else {
        return Ok(());
    };
    made.push(with_parameter(function, parameter)?)?;
    Ok(())
}

// The outermost level around a part.
fn around(alloc: Global, outer: OuterShape, part: CType) -> Result<CType, AllocError>
    ensures { IfOk result (λ tree. tree_seen tree ≡ around outer (tree_seen part)) }
{
    match outer.base {
        OuterBase::Void => Ok(with_base(outer, CBase::Void)),
        OuterBase::Integer(kind, identity) => {
            Ok(with_base(outer, CBase::Integer(kind, identity)))
        }
        OuterBase::Pointer(_) => Ok(with_base(outer, CBase::Pointer(Box::new(alloc, part)?))),
        OuterBase::Array(_, length) => {
            Ok(with_base(outer, CBase::Array(Box::new(alloc, part)?, length)))
        }
        OuterBase::Function(_, _, variadic) => Ok(with_base(
            outer,
            CBase::Function(Box::new(alloc, part)?, Vec::new(alloc), variadic),
        )),
        OuterBase::Aggregate(token, is_union) => {
            Ok(with_base(outer, CBase::Aggregate(token, is_union)))
        }
    }
}

// A base with what stands beside it at an outermost level.
fn with_base(outer: OuterShape, base: CBase) -> CType
    ensures { tree_seen result ≡ with_marks (base_of_ctype base) outer.is_const outer.is_volatile outer.noderef outer.space }
{
    CType {
        base,
        is_const: outer.is_const,
        is_volatile: outer.is_volatile,
        noderef: outer.noderef,
        space: outer.space,
    }
}

// A function with a further parameter; another type stays.
fn with_parameter(function: CType, parameter: CType) -> Result<CType, AllocError>
    ensures { IfOk result (λ tree. tree_seen tree ≡ with_parameters (tree_seen function) (MoreTypes (tree_seen parameter) NoTypes)) }
{
    let CType {
        base,
        is_const,
        is_volatile,
        noderef,
        space,
    } = function;
    match base {
        CBase::Function(answer, mut parameters, variadic) => {
            parameters.push(parameter)?;
            Ok(CType {
                base: CBase::Function(answer, parameters, variadic),
                is_const,
                is_volatile,
                noderef,
                space,
            })
        }
        base => Ok(CType {
            base,
            is_const,
            is_volatile,
            noderef,
            space,
        }),
    }
}
