//! A transformation by turns.

ghost use Rattle.std.specs.Prelude.{◌≡◌, List, Some, None, length, IfOk, IsErr};
ghost use Rattle.doc_model.specs.declared.step.Step.{Step};
ghost use Rattle.doc_model.specs.declared.strip_rule.StripRule.{StripRule};
ghost use Rattle.engine_core.specs.Holding.{scene, scene_of};
ghost use Rattle.engine_laws.specs.Growing.{Begins};
ghost use Rattle.engine_meaning.specs.Meaning.{at_first};
ghost use Rattle.engine_questions.specs.Asking.{Kept};
ghost use Rattle.key_sources.specs.Going.{Lookups, Stands};
ghost use Rattle.engine_meaning.specs.Meaning.{undone};
ghost use Rattle.sheet_ast.specs.declared.sheet.Sheet.{Sheet as Sheets};
ghost use Rattle.template_engine.specs.Turns.{Answers, EndsAs, IsOf, fault_of, given, or_outer};
ghost use Rattle.frames.specs.Apart.{base};
ghost use Rattle.template_engine.specs.declared.machine.Ended.TheVariants as ended;
ghost use Rattle.xpath_meaning.specs.Conversions.{text};

use crate::moves::run;
use crate::turn::{Spent, Turn};
use engine_core::Core;
use engine_questions::{ItemStream, Questions};
use fault_kinds::FaultKind;
use frames::{Frame, Stack};
use lists::List;
use result_events::{Buffer, Events};
use sheet_ast::{Global as TopVariable, Sheet};
use sheet_sizes::asks_size;
use std::alloc::{AllocError, Global};
use xpath_meaning::{Context, EvalStop, Size};
use xpath_values::{Atom, Value};

/// How a transformation ended.
#[derive(Clone, Copy)]
enum Ended {
    Done,
    Faulted(FaultKind),
    Spent,
}

/// A transformation of a document that may still grow, which goes on by turns. `'s` is the borrow of the stylesheet, and
/// `S` a stream of nodes.
#[derive(Drop)]
pub struct Machine<'s, S> {
    sheet: &'s Sheet,
    core: Core<'s, S>,
    order: &'s [u32],
    /// The budget at the start.
    budget: u64,
    ended: Option<Ended>,
}

/// What a transformation made.
#[derive(Drop)]
pub struct Raw {
    /// The fault that it ended with.
    pub fault: Option<FaultKind>,
    pub events: Events,
    /// In the order in which they were told.
    pub messages: List<List<u8>>,
}

impl<'s, S: ItemStream + Drop> Machine<'s, S> {
    /// A transformation by a stylesheet, with its globals in an order and with a budget of so many units. Nothing is made
    /// yet. Costs O(size of the stylesheet); fails only for want of memory.
    pub fn start(
        alloc: Global,
        sheet: &'s Sheet,
        order: &'s [u32],
        budget: u64,
    ) -> Result<Machine<'s, S>, AllocError>
        ensures of { IfOk result (λ m. (m.sheet ≡ sheet.entry) × (m.order ≡ order.entry) × (m.budget ≡ budget) × (m.ended ≡ None)) }
        ensures given { IfOk result (λ m. given m ≡ at_first budget) }
        ensures is { IfOk result (λ m. (lookups : Lookups) (rules : List StripRule) (steps : List Step) → IsOf (scene S.walks S.follows lookups rules) steps m) }
    {
        let mut frames = Stack::start(alloc)?;
        frames.push(Frame::Choose {
            mode: 0,
            given: List::new(alloc),
        })?;
        frames.push(Frame::Globals {
            left: order,
            begun: false,
        })?;
        let globals = undone_globals(alloc, sheet.globals.as_slice())?;
        let output = Buffer::start(alloc)?;
        Ok(Machine {
            sheet,
            core: Core {
                sheet,
                sizes: asks_size(sheet),
                frames,
                streams: List::new(alloc),
                globals,
                context: Context {
                    node: 0,
                    position: 1,
                    size: Size::Known(1),
                    current: 0,
                },
                locals: List::new(alloc),
                output,
                messages: List::new(alloc),
                budget,
            },
            order,
            budget,
            ended: None,
        })
    }

    /// Goes on as far as the document that is there decides. Done and a fault are final. After want of memory it is want
    /// of memory for good.
    pub fn turn<Q: Questions<'s, S>>(&mut self, alloc: Global, v: &mut Q) -> Result<Turn, Spent>
        requires stands { Stands (Q.sees v.old) (Q.fits v.old) }
        requires rules { (Q.asked v.old).rules ≡ self.old.sheet.now.rules }
        requires is { IsOf (scene_of S.walks S.follows (Q.asked v.old) (Q.sees v.old)) (Q.sees v.old).steps self.old }
        ensures kept { Kept (Q.sees v.old) (Q.sees v.new) (Q.asked v.old) (Q.asked v.new) (Q.fits v.new) }
        ensures answers { Answers (scene_of S.walks S.follows (Q.asked v.old) (Q.sees v.old)) (Q.sees v.old).steps (Q.sees v.new).steps self.old self.new result }
        ensures is { IsOf (scene_of S.walks S.follows (Q.asked v.old) (Q.sees v.old)) (Q.sees v.new).steps self.new }
        ensures same { (self.new.sheet ≡ self.old.sheet) × (self.new.order ≡ self.old.order) × (self.new.budget ≡ self.old.budget) }
        ensures adds { IfOk result (λ answer. Begins (given self.old) (given self.new)) }
        ensures ended { EndsAs self.new.ended result }
        ensures spent { self.old.ended ≡ Some ended.Spent → IsErr result }
    {
        match self.ended {
            Some(Ended::Done) => Ok(Turn::Done),
            Some(Ended::Faulted(fault)) => Ok(Turn::Faulted(fault)),
            Some(Ended::Spent) => Err(Spent),
            None => match run(&mut self.core, alloc, v) {
                Ok(()) => {
                    self.ended = Some(Ended::Done);
                    Ok(Turn::Done)
                }
                Err(EvalStop::Fault(fault)) => {
                    self.ended = Some(Ended::Faulted(fault));
                    Ok(Turn::Faulted(fault))
                }
                Err(EvalStop::NotYet(m)) => Ok(Turn::NotYet(m)),
                Err(EvalStop::Memory) => {
                    self.ended = Some(Ended::Spent);
                    Err(Spent)
                }
            },
        }
    }

    /// The result events so far, outside of the bodies that are run apart.
    pub fn events(&self) -> &Events
        ensures { result.now ≡ (given self.now).events }
    {
        match self.core.frames.outermost() {
            Some(outer) => outer.events(),
            None => self.core.output.events(),
        }
    }

    /// How many result events there are so far.
    pub fn made(&self) -> u64
        ensures { result ≡ length (given self.now).events }
    {
        self.events().len() as u64
    }

    /// What was made, once a turn answered that the transformation is done or has a fault: the fault, if there is one, the
    /// result events and the messages.
    pub fn outcome(self) -> Raw
        ensures fault { result.fault ≡ fault_of self.entry.ended }
        ensures events { result.events ≡ (given self.entry).events }
        ensures messages { result.messages ≡ (given self.entry).messages }
    {
        let Machine { core, ended, .. } = self;
        let Core {
            frames,
            output,
            messages,
            ..
        } = core;
        let fault = match ended {
            Some(Ended::Faulted(fault)) => Some(fault),
            _ => None,
        };
        Raw {
            fault,
            events: outermost(frames, output).into_events(),
            messages,
        }
    }
}

// A global that is not done has the empty text.
fn undone_globals(alloc: Global, globals: &[TopVariable]) -> Result<List<Value>, AllocError>
    ensures { (sheet : Sheets) → sheet.globals ≡ globals.now → IfOk result (λ values. values ≡ undone sheet) }
{
    let mut values = List::new(alloc);
    for _global in globals {
        values.push(Value::Atom(Atom::Text(List::new(alloc))))?;
    }
    Ok(values)
}

// The buffer outside of the bodies that are run apart.
fn outermost(frames: Stack, output: Buffer) -> Buffer
    ensures { result ≡ or_outer (base frames.entry) output }
{
    let mut buffer = output;
    let mut frames = frames;
    while let Some(frame) = frames.pop() {
        if let Frame::Apart { outer, .. } = frame {
            buffer = outer;
        }
    }
    buffer
}
