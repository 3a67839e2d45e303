ghost use Rattle.std.specs.Prelude.{◌≡◌};
ghost use Rattle.sheet_elements.specs.Names as spec;

use crate::tag::{Tag, Word};

/// Whether a URI is the namespace of stylesheets (XSLT 1.0, section 2.1).
pub fn is_xsl(uri: &[u8]) -> bool
    ensures { result ≡ spec.is_xsl uri.now }
{
    uri == b"http://www.w3.org/1999/XSL/Transform".as_slice()
}

/// The element of the namespace that has this name.
#[tactic(auto, unfolding(crate::specs::Names::tag_of))]
pub fn tag_of(name: &[u8]) -> Option<Tag>
    ensures { result ≡ spec.tag_of name.now }
{
    top_element(name)
}

fn top_element(name: &[u8]) -> Option<Tag>
    ensures { result ≡ spec.named_in spec.top_elements name.now }
{
    if name == b"stylesheet".as_slice() {
        Some(Tag::Stylesheet)
    } else if name == b"transform".as_slice() {
        Some(Tag::Stylesheet)
    } else if name == b"output".as_slice() {
        Some(Tag::Output)
    } else if name == b"strip-space".as_slice() {
        Some(Tag::StripSpace)
    } else if name == b"preserve-space".as_slice() {
        Some(Tag::PreserveSpace)
    } else if name == b"template".as_slice() {
        Some(Tag::Template)
    } else {
        part(name)
    }
}

fn part(name: &[u8]) -> Option<Tag>
    ensures { result ≡ spec.named_in spec.parts name.now }
{
    if name == b"variable".as_slice() {
        Some(Tag::Variable)
    } else if name == b"param".as_slice() {
        Some(Tag::Param)
    } else if name == b"with-param".as_slice() {
        Some(Tag::WithParam)
    } else if name == b"sort".as_slice() {
        Some(Tag::Sort)
    } else if name == b"when".as_slice() {
        Some(Tag::When)
    } else if name == b"otherwise".as_slice() {
        Some(Tag::Otherwise)
    } else {
        flow_instruction(name)
    }
}

fn flow_instruction(name: &[u8]) -> Option<Tag>
    ensures { result ≡ spec.named_in spec.flow_instructions name.now }
{
    if name == b"apply-templates".as_slice() {
        Some(Tag::ApplyTemplates)
    } else if name == b"call-template".as_slice() {
        Some(Tag::CallTemplate)
    } else if name == b"for-each".as_slice() {
        Some(Tag::ForEach)
    } else if name == b"if".as_slice() {
        Some(Tag::If)
    } else if name == b"choose".as_slice() {
        Some(Tag::Choose)
    } else if name == b"message".as_slice() {
        Some(Tag::Message)
    } else if name == b"text".as_slice() {
        Some(Tag::Text)
    } else {
        node_instruction(name)
    }
}

fn node_instruction(name: &[u8]) -> Option<Tag>
    ensures { result ≡ spec.named_in spec.node_instructions name.now }
{
    if name == b"value-of".as_slice() {
        Some(Tag::ValueOf)
    } else if name == b"copy-of".as_slice() {
        Some(Tag::CopyOf)
    } else if name == b"copy".as_slice() {
        Some(Tag::Copy)
    } else if name == b"element".as_slice() {
        Some(Tag::Element)
    } else if name == b"attribute".as_slice() {
        Some(Tag::Attribute)
    } else if name == b"processing-instruction".as_slice() {
        Some(Tag::ProcessingInstruction)
    } else if name == b"comment".as_slice() {
        Some(Tag::Comment)
    } else {
        None
    }
}

/// The attribute that has this name, without a namespace.
#[tactic(auto, unfolding(crate::specs::Names::word_of))]
pub fn word_of(name: &[u8]) -> Word
    ensures { result ≡ spec.word_of name.now }
{
    sheet_word(name).unwrap_or(Word::Other)
}

fn sheet_word(name: &[u8]) -> Option<Word>
    ensures { result ≡ spec.named_in spec.sheet_words name.now }
{
    if name == b"version".as_slice() {
        Some(Word::Version)
    } else if name == b"id".as_slice() {
        Some(Word::Id)
    } else if name == b"exclude-result-prefixes".as_slice() {
        Some(Word::ExcludeResultPrefixes)
    } else if name == b"extension-element-prefixes".as_slice() {
        Some(Word::ExtensionElementPrefixes)
    } else if name == b"method".as_slice() {
        Some(Word::Method)
    } else if name == b"encoding".as_slice() {
        Some(Word::Encoding)
    } else if name == b"omit-xml-declaration".as_slice() {
        Some(Word::OmitXmlDeclaration)
    } else {
        output_word(name)
    }
}

fn output_word(name: &[u8]) -> Option<Word>
    ensures { result ≡ spec.named_in spec.output_words name.now }
{
    if name == b"standalone".as_slice() {
        Some(Word::Standalone)
    } else if name == b"doctype-public".as_slice() {
        Some(Word::DoctypePublic)
    } else if name == b"doctype-system".as_slice() {
        Some(Word::DoctypeSystem)
    } else if name == b"cdata-section-elements".as_slice() {
        Some(Word::CdataSectionElements)
    } else if name == b"indent".as_slice() {
        Some(Word::Indent)
    } else if name == b"media-type".as_slice() {
        Some(Word::MediaType)
    } else if name == b"elements".as_slice() {
        Some(Word::Elements)
    } else {
        main_word(name)
    }
}

fn main_word(name: &[u8]) -> Option<Word>
    ensures { result ≡ spec.named_in spec.main_words name.now }
{
    if name == b"name".as_slice() {
        Some(Word::Name)
    } else if name == b"match".as_slice() {
        Some(Word::Match)
    } else if name == b"priority".as_slice() {
        Some(Word::Priority)
    } else if name == b"mode".as_slice() {
        Some(Word::Mode)
    } else if name == b"select".as_slice() {
        Some(Word::Select)
    } else if name == b"data-type".as_slice() {
        Some(Word::DataType)
    } else {
        other_word(name)
    }
}

fn other_word(name: &[u8]) -> Option<Word>
    ensures { result ≡ spec.named_in spec.other_words name.now }
{
    if name == b"order".as_slice() {
        Some(Word::Order)
    } else if name == b"lang".as_slice() {
        Some(Word::Lang)
    } else if name == b"case-order".as_slice() {
        Some(Word::CaseOrder)
    } else if name == b"disable-output-escaping".as_slice() {
        Some(Word::DisableOutputEscaping)
    } else if name == b"namespace".as_slice() {
        Some(Word::Namespace)
    } else if name == b"terminate".as_slice() {
        Some(Word::Terminate)
    } else if name == b"test".as_slice() {
        Some(Word::Test)
    } else {
        None
    }
}

/// Whether an element of the namespace has this name that is known and not supported.
#[tactic(auto, unfolding(crate::specs::Names::is_left_out))]
pub fn is_left_out(name: &[u8]) -> bool
    ensures { result ≡ spec.is_left_out name.now }
{
    name == b"key".as_slice()
        || name == b"import".as_slice()
        || name == b"include".as_slice()
        || name == b"apply-imports".as_slice()
        || name == b"attribute-set".as_slice()
        || name == b"decimal-format".as_slice()
        || name == b"namespace-alias".as_slice()
        || name == b"number".as_slice()
        || name == b"fallback".as_slice()
}
