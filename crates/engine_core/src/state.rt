//! What is left to do of a transformation, and what was made.

use frames::Stack;
use lists::List;
use result_events::Buffer;
use sheet_ast::Sheet;
use xpath_meaning::Context;
use xpath_values::Value;

/// A transformation that stopped: what is left to do, and what was made. `'s` is the borrow of the stylesheet, and `S` a
/// stream of nodes.
#[derive(Drop)]
pub struct Core<'s, S> {
    pub sheet: &'s Sheet,
    /// Whether some expression of the stylesheet asks for a context size outside of predicates.
    pub sizes: bool,
    pub frames: Stack<'s>,
    /// The streams of the frames that take nodes one by one, the innermost last.
    pub streams: List<S>,
    /// The values of the globals, in the order of the stylesheet; a global that isn't done has the empty text.
    pub globals: List<Value>,
    pub context: Context,
    /// The values of the locals in scope, the innermost last.
    pub locals: List<Value>,
    /// The result events of the innermost body that is run apart, or else those of the result.
    pub output: Buffer,
    /// In the order in which they were told.
    pub messages: List<List<u8>>,
    /// How many units are left.
    pub budget: u64,
}
