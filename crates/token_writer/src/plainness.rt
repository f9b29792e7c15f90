// Whether a table is plain: each of its nodes is.
ghost use Rattle.std.specs.Prelude.{◌≡◌, [], ◌∷◌};
ghost use Rattle.laws.specs.Choice.{is_one_of};
ghost use Rattle.tree.specs.Trees.{label_at};
ghost use Rattle.token_plain.specs.Plain.{is_plain, plain_table};

use tree::columns;
use tree::form::Form;
use tree::table::Table;

#[tactic(auto, unfolding(token_plain::specs::Plain::is_plain, tree::specs::Trees::label_at, laws::specs::Choice::pick))]
fn is_plain(table: &Table, node: u16) -> bool
    ensures { result ≡ is_plain (label_at table.now.cells.now node) }
{
    if table.attributes(node) != 0 {
        return false;
    }
    let Ok(form) = Form::try_from(table.cell(node, columns::FORM)) else {
        return false;
    };
    match form {
        Form::ExprPath
        | Form::ExprLit
        | Form::ExprMethodCall
        | Form::ExprUnary
        | Form::ExprReference
        | Form::ExprBinary
        | Form::ExprAssign
        | Form::ExprCast
        | Form::ExprField
        | Form::ExprIndex
        | Form::ExprTry
        | Form::ExprParen
        | Form::ExprCall
        | Form::ExprAwait
        | Form::ExprStruct => true,
        Form::TypePtr | Form::TypeInfer | Form::TypeNever | Form::TypeReference | Form::Link =>
            true,
        Form::TypePath => matches!(table.detail(node), 1 | 2),
        _ => false,
    }
}

pub fn is_plain_table(table: &Table) -> bool
    ensures { result ≡ plain_table table.now.count table.now.cells.now }
{
    for done in 0..table.count {
        if !is_plain(table, done + 1) {
            return false;
        }
    }
    true
}
