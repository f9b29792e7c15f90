// What the one pass knows of a form: its row. A row is a class, 4 times the highest attributes, 16 and 128 times the codes of
// the first and the second place, and 1,024 times the highest detail. 27,801, of binaries, is an expression (1) with
// attributes up to 2 (8), an expression at each place (16 and 128) and a detail up to 27 (27,648).
// Forms and rows are numbers here for speed, 0 for none: the pass asks for one at each node (docs/PERFORMANCE.md, 'Instructions').
ghost use Rattle.std.specs.Prelude.{◌≡◌, true, not, ◌&&◌, ℕ, ◌<◌, eqb};
ghost use Rattle.tree.specs.Forms.{expr_closure, type_impl_trait, type_path, type_trait_object};
ghost use Rattle.tree.specs.Table.{form_at, detail_at};
ghost use Rattle.tree_source.specs.Source.{cells_of};
ghost use Rattle.tree_one_pass.specs.Rows.{fits_by, suits, RowAt};

use tree::forms;
use tree_rules::refusal::has_bad_output;
use tree_source::Source;

// The kinds that fit a place, by its code: byte n of it has a bit for each kind that fits code n. The codes are 0 nothing,
// 1 and 2 required, 3 and 4 optional, 5 and 6 a list, each of expressions and of types, 7 an item.
const KINDS: u64 = 0x0611_0905_0304_0201;

// Whether a kind fits a place with this code.
pub(crate) fn fits(code: u16, kind: u16) -> bool
    requires { (code < 8) × (kind < 8) }
    ensures { result ≡ true → fits_by code kind ≡ true }
{
    let bit = u64::from(8 * code + kind);
    (KINDS >> bit) % 2 == 1
}

// The row of a form, whatever its detail; 0 where there is none, or where it takes more than the form to say it.
pub fn row_of(form: u16) -> u16
    ensures { (result ≡ 0 → ⊥) → (detail : ℕ) → (suits form detail result && not (eqb form expr_closure)) ≡ true }
{
    match form {
        forms::EXPR_ARRAY
        | forms::EXPR_ASYNC
        | forms::EXPR_CONST
        | forms::EXPR_IF
        | forms::EXPR_INFER
        | forms::EXPR_LIT
        | forms::EXPR_MATCH
        | forms::EXPR_PATH
        | forms::EXPR_REPEAT
        | forms::EXPR_STRUCT
        | forms::EXPR_TRY_BLOCK
        | forms::EXPR_UNSAFE => 9,
        forms::EXPR_CONTINUE | forms::EXPR_TUPLE => 9,
        forms::EXPR_BLOCK | forms::EXPR_FOR_LOOP | forms::EXPR_LOOP | forms::EXPR_WHILE => 1033,
        forms::EXPR_MACRO => 2057,
        forms::EXPR_VERBATIM => 1025,
        forms::EXPR_AWAIT
        | forms::EXPR_GROUP
        | forms::EXPR_LET
        | forms::EXPR_PAREN
        | forms::EXPR_TRY => 25,
        forms::EXPR_FIELD | forms::EXPR_RAW_ADDR => 1049,
        forms::EXPR_REFERENCE => 1049,
        forms::EXPR_UNARY => 2073,
        forms::EXPR_ASSIGN | forms::EXPR_INDEX => 153,
        forms::EXPR_BINARY => 27801,
        forms::EXPR_CAST => 281,
        forms::EXPR_RETURN | forms::EXPR_YIELD => 57,
        forms::EXPR_BREAK => 1081,
        forms::EXPR_RANGE => 1465,
        forms::EXPR_CALL | forms::EXPR_METHOD_CALL => 665,
        forms::TYPE_ARRAY
        | forms::TYPE_GROUP
        | forms::TYPE_INFER
        | forms::TYPE_NEVER
        | forms::TYPE_SLICE
        | forms::TYPE_TUPLE => 2,
        forms::TYPE_PAREN => 2,
        forms::TYPE_MACRO => 2050,
        forms::TYPE_VERBATIM => 1026,
        forms::TYPE_PTR => 1058,
        forms::TYPE_REFERENCE => 1058,
        forms::TYPE_FN_PTR => 66,
        forms::LINK => 115,
        _ => 0,
    }
}

// The row of a path type, by its detail; 0 for one without a segment.
fn path_row(detail: u16) -> u16
    ensures { (result ≡ 0 → ⊥) → suits type_path detail result ≡ true }
{
    match detail {
        1 => 3074,
        2 => 3842,
        3 => 3138,
        _ => 0,
    }
}

// The row of bounds, by their detail; 0 where there is none.
fn bounds_row(detail: u16) -> u16
    ensures { (result ≡ 0 → ⊥) → (suits type_impl_trait detail result && suits type_trait_object detail result) ≡ true }
{
    match detail {
        1 | 4 | 6 => 7170,
        2 | 5 | 7 => 7170,
        3 => 7234,
        _ => 0,
    }
}

// The row of a node whose form alone does not say it; 0 where there is none.
pub(crate) fn rare_row(source: &Source, node: u16, form: u16, detail: u16) -> u16
    requires { (form ≡ form_at (cells_of source.now.file.now source.now.held.now) node) × (detail ≡ detail_at (cells_of source.now.file.now source.now.held.now) node) }
    ensures { (result ≡ 0 → ⊥) → RowAt (cells_of source.now.file.now source.now.held.now) node result }
{
    match form {
        forms::TYPE_PATH => path_row(detail),
        forms::TYPE_IMPL_TRAIT | forms::TYPE_TRAIT_OBJECT => bounds_row(detail),
        forms::EXPR_CLOSURE => {
            if has_bad_output(source, node) {
                0
            } else {
                1049
            }
        }
        _ => 0,
    }
}
