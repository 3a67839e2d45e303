ghost use Rattle.std.specs.Prelude.{◌≡◌, ℕ, List};
ghost use Rattle.doc_laws.specs.Ordered.{AscendsFrom};
ghost use Rattle.doc_model.specs.Document.{is_member};
ghost use Rattle.xpath_meaning.specs.DocumentOrder.{document_order};

/// Nodes in document order ascend by the numbers of their rows and are those that were given; and there is
/// one such list alone.
pub fn document_order_is_the_ascending_list_of_the_nodes()
    ensures ascends { (nodes : List ℕ) → AscendsFrom 0 (document_order nodes) }
    ensures members { (nodes : List ℕ) (n : ℕ) → is_member n (document_order nodes) ≡ is_member n nodes }
    ensures one { (nodes ordered : List ℕ) → AscendsFrom 0 ordered → ((n : ℕ) → is_member n ordered ≡ is_member n nodes) → ordered ≡ document_order nodes }
{}
