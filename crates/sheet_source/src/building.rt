// The elements that stand open while events are taken.
ghost use Rattle.std.specs.Prelude.{◌≡◌, ◌+◌, ◌-◌, ◌<◌, ◌∷◌, ◌++◌, [], List as Lst, IsTrue, IfOk, OnOk, length, reverse, ◌↔◌};
ghost use Rattle.std.specs.List.{list_all};
ghost use Rattle.doc_model.specs.Strip as strip;
ghost use Rattle.pyx_events.specs.declared.event.Event.{Event};
ghost use Rattle.pyx_events.specs.declared.event.Event.TheVariants.{Shut};
ghost use Rattle.sheet_source.specs.Building.{Adds, completed, starts_of};
ghost use Rattle.sheet_source.specs.Nodes as spec;
ghost use Rattle.sheet_source.specs.Scopes.{entries_of, innermost, scope_of};

use crate::tree::{Document, Element, Node, Start};
use doc_model::Row;
use lists::List;
use pyx_events::Event;
use sheet_elements::is_xsl;
use sheet_scopes::ScopeEntry;
use std::alloc::{AllocError, Global};
use xml_names::Binding;

/// What the events so far have given.
#[derive(Drop)]
pub struct Building {
    /// Each with its content so far, the innermost last.
    pub stack: List<Element>,
    pub nodes: List<Node>,
    pub scopes: List<ScopeEntry>,
}

impl Building {
    pub fn start(alloc: Global) -> Building
        ensures { (events : Lst Event) → completed result events ≡ spec.document_of events }
    {
        Building {
            stack: List::new(alloc),
            nodes: List::new(alloc),
            scopes: List::new(alloc),
        }
    }

    /// Takes the next event.
    pub fn take(&mut self, alloc: Global, event: Event) -> Result<(), AllocError>
        ensures { OnOk result ((events : Lst Event) → completed self.new events ≡ completed self.old (event ∷ events)) }
    {
        match event {
            Event::Node {
                row,
                attributes,
                declarations,
                line,
                ..
            } => {
                if row.kind.is_element() {
                    self.open_element(alloc, row, attributes, declarations, line)?;
                    return Ok(());
                }
                if self.keeps(&row) {
                    self.push(Node::Text(row.value))?;
                    return Ok(());
                }
                Ok(())
            }
            Event::Shut => {
                self.shut()?;
                Ok(())
            }
        }
    }
}

impl Building {
    // The scope of the innermost open element.
    fn scope(&self) -> u32
        ensures { result ≡ innermost (starts_of self.now.stack) }
    {
        match self.stack.as_slice() {
            [] => 0,
            [.., element] => element.start.scope,
        }
    }

    // Whether a row is a text that stays in the innermost open element.
    fn keeps(&self, row: &Row) -> bool
        ensures { result ≡ spec.keeps (starts_of self.now.stack) row.now }
    {
        row.kind.is_text() && (!is_blank(row.value.as_slice()) || self.in_text())
    }

    // Whether the innermost open element is xsl:text.
    fn in_text(&self) -> bool
        ensures { result ≡ spec.in_text (starts_of self.now.stack) }
    {
        match self.stack.as_slice() {
            [] => false,
            [.., element] => {
                is_xsl(element.start.row.uri.as_slice())
                    && element.start.row.local.as_slice() == b"text".as_slice()
            }
        }
    }

    // Begins an element in the innermost open one.
    fn open_element(
        &mut self,
        alloc: Global,
        row: Row,
        attributes: List<Row>,
        declarations: List<Binding>,
        line: u64,
    ) -> Result<(), AllocError>
        ensures stack { OnOk result (self.new.stack ≡ self.old.stack ++ spec.opened (spec.start_of (starts_of self.old.stack) (length self.old.scopes) row attributes declarations line) ∷ []) }
        ensures scopes { OnOk result (self.new.scopes ≡ self.old.scopes ++ entries_of (innermost (starts_of self.old.stack)) (length self.old.scopes) declarations) }
        ensures nodes { OnOk result (self.new.nodes ≡ self.old.nodes) }
    {
        let outer = self.scope();
        let scope = declare(alloc, &mut self.scopes, outer, declarations.as_slice())?;
        self.stack.push(Element {
            start: Start {
                line,
                row,
                attributes,
                declarations,
                scope,
            },
            children: List::new(alloc),
        })?;
        Ok(())
    }

    // Adds a node to the innermost open element, or outside of all.
    fn push(&mut self, node: Node) -> Result<(), AllocError>
        ensures { OnOk result (Adds node self.old self.new) }
    {
        match self.stack.pop() {
            Some(mut element) => {
                element.children.push(node)?;
                self.stack.push(element)?;
            }
            None => self.nodes.push(node)?,
        }
        Ok(())
    }

    // Ends the innermost open element.
    fn shut(&mut self) -> Result<(), AllocError>
        ensures taken { OnOk result ((events : Lst Event) → completed self.new events ≡ completed self.old (Shut ∷ events)) }
        ensures fewer { OnOk result (length self.new.stack ≡ length self.old.stack - 1) }
    {
        match self.stack.pop() {
            Some(element) => {
                self.push(Node::Element(element))?;
                Ok(())
            }
            None => Ok(()),
        }
    }

    /// What all events gave.
    pub fn finish(self) -> Result<Document, AllocError>
        ensures { IfOk result (λ document. document ≡ completed self []) }
    {
        let mut building = self;
        while !building.stack.is_empty() {
            building.shut()?;
        }
        Ok(Document {
            nodes: building.nodes,
            scopes: building.scopes,
        })
    }
}

fn is_blank(text: &[u8]) -> bool
    ensures { result ≡ list_all strip.is_white text.now }
{
    text.iter().all(|b| is_white(*b))
}

fn is_white(b: u8) -> bool
    ensures { result ≡ strip.is_white b }
{
    matches!(b, b' ' | b'\t' | b'\n' | b'\r')
}

// Adds the declarations of an element to the scopes, and gives its scope.
fn declare(
    alloc: Global,
    scopes: &mut List<ScopeEntry>,
    outer: u32,
    declarations: &[Binding],
) -> Result<u32, AllocError>
    ensures scope { IfOk result (λ scope. scope ≡ scope_of outer (length scopes.old) declarations.now) }
    ensures entries { OnOk result (scopes.new ≡ scopes.old ++ entries_of outer (length scopes.old) declarations.now) }
{
    let mut scope = outer;
    for binding in declarations {
        scopes.push(ScopeEntry {
            outer: scope,
            prefix: List::from_slice(alloc, binding.prefix.as_slice())?,
            uri: List::from_slice(alloc, binding.uri.as_slice())?,
        })?;
        scope = number(scopes.len())?;
    }
    Ok(scope)
}

// The number of a scope. Declarations that no u32 counts have no room in any memory.
fn number(count: usize) -> Result<u32, AllocError>
    ensures { IfOk result (λ scope. scope ≡ count) }
{
    match u32::try_from(count) {
        Ok(scope) => Ok(scope),
        Err(_) => Err(AllocError),
    }
}
