//! The functions of XPath (XPath 1.0, section 4) and those that XSLT adds (XSLT 1.0, section 12).

ghost use Rattle.std.specs.Prelude.{◌≡◌};
ghost use Rattle.xpath_binding.specs.Functions as spec;

/// A function.
#[derive(Clone, Copy, Debug, PartialEq, Eq)]
pub enum Function {
    Last,
    Position,
    Count,
    Id,
    LocalName,
    NamespaceUri,
    Name,
    String,
    Concat,
    StartsWith,
    Contains,
    SubstringBefore,
    SubstringAfter,
    Substring,
    StringLength,
    NormalizeSpace,
    Translate,
    Boolean,
    Not,
    True,
    False,
    Lang,
    Number,
    Sum,
    Floor,
    Ceiling,
    Round,
    Key,
    Current,
    GenerateId,
}

/// The function of a name without a prefix, or `None` where there is none.
pub fn function_named(name: &[u8]) -> Option<Function>
    ensures { result ≡ spec.named_in spec.functions name.now }
{
    if name == b"last".as_slice() {
        Some(Function::Last)
    } else if name == b"position".as_slice() {
        Some(Function::Position)
    } else if name == b"count".as_slice() {
        Some(Function::Count)
    } else if name == b"id".as_slice() {
        Some(Function::Id)
    } else if name == b"local-name".as_slice() {
        Some(Function::LocalName)
    } else if name == b"namespace-uri".as_slice() {
        Some(Function::NamespaceUri)
    } else if name == b"name".as_slice() {
        Some(Function::Name)
    } else {
        function_of_texts(name)
    }
}

fn function_of_texts(name: &[u8]) -> Option<Function>
    ensures { result ≡ spec.named_in spec.text_functions name.now }
{
    if name == b"string".as_slice() {
        Some(Function::String)
    } else if name == b"concat".as_slice() {
        Some(Function::Concat)
    } else if name == b"starts-with".as_slice() {
        Some(Function::StartsWith)
    } else if name == b"contains".as_slice() {
        Some(Function::Contains)
    } else if name == b"substring-before".as_slice() {
        Some(Function::SubstringBefore)
    } else if name == b"substring-after".as_slice() {
        Some(Function::SubstringAfter)
    } else if name == b"substring".as_slice() {
        Some(Function::Substring)
    } else {
        other_function_of_texts(name)
    }
}

fn other_function_of_texts(name: &[u8]) -> Option<Function>
    ensures { result ≡ spec.named_in spec.other_text_functions name.now }
{
    if name == b"string-length".as_slice() {
        Some(Function::StringLength)
    } else if name == b"normalize-space".as_slice() {
        Some(Function::NormalizeSpace)
    } else if name == b"translate".as_slice() {
        Some(Function::Translate)
    } else if name == b"boolean".as_slice() {
        Some(Function::Boolean)
    } else if name == b"not".as_slice() {
        Some(Function::Not)
    } else if name == b"true".as_slice() {
        Some(Function::True)
    } else if name == b"false".as_slice() {
        Some(Function::False)
    } else if name == b"lang".as_slice() {
        Some(Function::Lang)
    } else {
        other_function(name)
    }
}

fn other_function(name: &[u8]) -> Option<Function>
    ensures { result ≡ spec.named_in spec.other_functions name.now }
{
    if name == b"number".as_slice() {
        Some(Function::Number)
    } else if name == b"sum".as_slice() {
        Some(Function::Sum)
    } else if name == b"floor".as_slice() {
        Some(Function::Floor)
    } else if name == b"ceiling".as_slice() {
        Some(Function::Ceiling)
    } else if name == b"round".as_slice() {
        Some(Function::Round)
    } else if name == b"key".as_slice() {
        Some(Function::Key)
    } else if name == b"current".as_slice() {
        Some(Function::Current)
    } else if name == b"generate-id".as_slice() {
        Some(Function::GenerateId)
    } else {
        None
    }
}

impl Function {
    /// Whether the function takes so many arguments.
    pub fn takes(self, count: usize) -> bool
        ensures { result ≡ spec.takes self count }
    {
        match self {
            Function::Last
            | Function::Position
            | Function::True
            | Function::False
            | Function::Current => count == 0,
            Function::LocalName
            | Function::NamespaceUri
            | Function::Name
            | Function::GenerateId
            | Function::String
            | Function::Number
            | Function::StringLength
            | Function::NormalizeSpace => count <= 1,
            Function::Count
            | Function::Sum
            | Function::Id
            | Function::Boolean
            | Function::Not
            | Function::Lang
            | Function::Floor
            | Function::Ceiling
            | Function::Round => count == 1,
            Function::Key
            | Function::StartsWith
            | Function::Contains
            | Function::SubstringBefore
            | Function::SubstringAfter => count == 2,
            Function::Concat => count >= 2,
            Function::Substring => count == 2 || count == 3,
            Function::Translate => count == 3,
        }
    }
}
