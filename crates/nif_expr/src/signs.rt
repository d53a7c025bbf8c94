//! Operators, parentheses and words in `#`.
ghost use Rattle.std.specs.Prelude.{◌≡◌, map, None, Some, MatchOption, ◌<◌, length};
ghost use Rattle.nif_expr.specs.Parts.{signs, first_sign};
ghost use Rattle.nif_expr.specs.SignTable.{entry_of, sign_part};

use nif_schema::Op;

/// An operator, a parenthesis or `#ARG#`.
#[derive(Clone, Copy)]
pub(crate) enum Sign {
    Operator(Op),
    Negation,
    Opening,
    Closing,
    Arg,
}

/// The spellings, each before those that it begins with.
const SIGNS: [(&[u8], Sign); 36] = [
    (b"||", Sign::Operator(Op::Or)),
    (b"#OR#", Sign::Operator(Op::Or)),
    (b"&&", Sign::Operator(Op::And)),
    (b"#AND#", Sign::Operator(Op::And)),
    (b"|", Sign::Operator(Op::BitOr)),
    (b"#BITOR#", Sign::Operator(Op::BitOr)),
    (b"&", Sign::Operator(Op::BitAnd)),
    (b"#BITAND#", Sign::Operator(Op::BitAnd)),
    (b"==", Sign::Operator(Op::Eq)),
    (b"#EQ#", Sign::Operator(Op::Eq)),
    (b"!=", Sign::Operator(Op::Ne)),
    (b"#NEQ#", Sign::Operator(Op::Ne)),
    (b"<<", Sign::Operator(Op::Shl)),
    (b"#LSH#", Sign::Operator(Op::Shl)),
    (b">>", Sign::Operator(Op::Shr)),
    (b"#RSH#", Sign::Operator(Op::Shr)),
    (b"<=", Sign::Operator(Op::Le)),
    (b"#LTE#", Sign::Operator(Op::Le)),
    (b">=", Sign::Operator(Op::Ge)),
    (b"#GTE#", Sign::Operator(Op::Ge)),
    (b"<", Sign::Operator(Op::Lt)),
    (b"#LT#", Sign::Operator(Op::Lt)),
    (b">", Sign::Operator(Op::Gt)),
    (b"#GT#", Sign::Operator(Op::Gt)),
    (b"+", Sign::Operator(Op::Add)),
    (b"#ADD#", Sign::Operator(Op::Add)),
    (b"-", Sign::Operator(Op::Sub)),
    (b"#SUB#", Sign::Operator(Op::Sub)),
    (b"*", Sign::Operator(Op::Mul)),
    (b"#MUL#", Sign::Operator(Op::Mul)),
    (b"/", Sign::Operator(Op::Div)),
    (b"#DIV#", Sign::Operator(Op::Div)),
    (b"!", Sign::Negation),
    (b"(", Sign::Opening),
    (b")", Sign::Closing),
    (b"#ARG#", Sign::Arg),
];

/// The first of these spellings that a text begins with, and what follows it.
fn find_sign<'a>(table: &[(&[u8], Sign)], text: &'a [u8]) -> Option<(Sign, &'a [u8])>
    ensures { MatchOption result
        (first_sign (map entry_of table.now) text.now ≡ None)
        (λ r. first_sign (map entry_of table.now) text.now ≡ Some (sign_part r.0, r.1.now)) }
{
    for (spelling, sign) in table {
        if text.starts_with(spelling) {
            return Some((*sign, &text[spelling.len()..]));
        }
    }
    None
}

/// The sign that a text begins with, the longest that there is, and what follows it.
pub(crate) fn first(text: &[u8]) -> Option<(Sign, &[u8])>
    ensures { MatchOption result
        (first_sign signs text.now ≡ None)
        (λ r. first_sign signs text.now ≡ Some (sign_part r.0, r.1.now)) }
{
    find_sign(&SIGNS, text)
}
