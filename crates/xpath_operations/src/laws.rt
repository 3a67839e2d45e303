ghost use Rattle.std.specs.Prelude.{◌≡◌, List};
ghost use Rattle.xpath_meaning.specs.declared.context.Context.{Context};
ghost use Rattle.xpath_meaning.specs.Meanings.{Meaning, Meant, plain};
ghost use Rattle.xpath_meaning.specs.Operators.{binary};
ghost use Rattle.xpath_meaning.specs.Outcome.{Outcome, ◌>>=◌ as ◌>>>◌};
ghost use Rattle.xpath_meaning.specs.Reading.{Reading};
ghost use Rattle.xpath_operations.specs.Operands.{applied, operand_in, kind_of, operand_by};
ghost use Rattle.xpath_syntax.specs.declared.expression.Op.{Op};
ghost use Rattle.xpath_values.specs.declared.value.Value.{Value};

/// An operation is its left operand, converted, and then the operator with the right one; and an operand that is no path
/// whose nodes may be taken one by one is its value, converted.
pub fn operations_are_made_of_operands()
    ensures operation { (op : Op) (left right : Meant) (R : Reading) (values : List Value) (c : Context) → binary op left right R values c ≡
        (operand_in op left R values c >>> λ x. applied op x right R values c) }
    ensures operand { (op : Op) (value : Meaning (Outcome Value)) (R : Reading) (values : List Value) (c : Context) → operand_in op (plain value) R values c ≡
        (value R values c >>> λ v. operand_by (kind_of op) R v) }
{}
