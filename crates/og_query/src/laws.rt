//! What is known of the ordinary meaning, over its definitions alone.
ghost use Rattle.std.specs.Prelude.{◌≡◌, ◌≤◌, ◌⊎◌, ◌↔◌, ◌++◌, ◌&&◌, ◌∷◌, [], ℕ, ℤ, List, Some, Contains, length, map, filter};
ghost use Rattle.og_base.specs.Set.{set_of};
ghost use Rattle.og_value.specs.Order.{row_order};
ghost use Rattle.og_value.specs.declared.kind.Kind.{Kind};
ghost use Rattle.og_query.specs.Conditions.{truth};
ghost use Rattle.og_query.specs.Expressions.{meaning};
ghost use Rattle.og_query.specs.Kinds.{fixed_kind, kind_in};
ghost use Rattle.og_query.specs.Queries.{Fixed, Named, image, is_kept, core_rows, combined, ordinary_query};
ghost use Rattle.og_query.specs.Sizes.{query_size};
ghost use Rattle.og_query.specs.declared.condition.Cond.{Cond};
ghost use Rattle.og_query.specs.declared.condition.Cond.TheVariants as conds;
ghost use Rattle.og_query.specs.declared.expression.Expr.{Expr};
ghost use Rattle.og_query.specs.declared.query.Core.{Core};
ghost use Rattle.og_query.specs.declared.query.From1.{From1};
ghost use Rattle.og_query.specs.declared.query.Query.{Query};
ghost use Rattle.og_value.specs.declared.term.SetOp.{SetOp};
ghost use Rattle.og_value.specs.declared.term.SetOp.TheVariants as ops;

/// The order of two tables of FROM does not matter: where the conditions and the items say of two
/// rows joined the one way what those of another core say of them joined the other way, both cores
/// have one answer.
pub fn tables_in_either_order()
    ensures { (d : ℤ) (rows : Named) (core other : Core) (first second : From1) →
        core.tables ≡ first ∷ second ∷ [] → other.tables ≡ second ∷ first ∷ [] →
        ((x y : Fixed) → is_kept d rows core (x ++ y) ≡ is_kept d rows other (y ++ x)) →
        ((x y : Fixed) → image d core.items (x ++ y) ≡ image d other.items (y ++ x)) →
        core_rows d rows core ≡ core_rows d rows other }
{}

/// AND of conditions is one after the other.
pub fn one_condition_after_the_other()
    ensures holds { (d : ℤ) (row : Fixed) (some more : List Cond) → truth d row (conds.And (some ++ more)) ≡ (truth d row (conds.And some) && truth d row (conds.And more)) }
    ensures keeps { (d : ℤ) (rows : List Fixed) (some more : List Cond) →
        filter (λ row. truth d row (conds.And (some ++ more))) rows
        ≡ filter (λ row. truth d row (conds.And more)) (filter (λ row. truth d row (conds.And some)) rows) }
{}

/// UNION, EXCEPT and INTERSECT are those of sets, and each answer of a query is a set: its rows rise,
/// each once.
pub fn answers_are_sets()
    ensures union { (xs ys : List Fixed) (row : Fixed) → Contains (combined ops.Union xs ys) row ↔ (Contains xs row ⊎ Contains ys row) }
    ensures except { (xs ys : List Fixed) (row : Fixed) → Contains (combined ops.Except xs ys) row ↔ (Contains xs row × (¬ Contains ys row)) }
    ensures intersect { (xs ys : List Fixed) (row : Fixed) → Contains (combined ops.Intersect xs ys) row ↔ (Contains xs row × Contains ys row) }
    ensures rising { (d : ℤ) (rows : Named) (query : Query) → ordinary_query d rows query ≡ set_of row_order (ordinary_query d rows query) }
{}

/// An answer has at most as many rows as the size of the query says.
pub fn answers_keep_the_size()
    ensures { (d : ℤ) (rows : Named) (query : Query) → length (ordinary_query d rows query) ≤ query_size (λ name. length (rows name)) query }
{}

/// An expression that fits a row's kinds has a value of its kind.
pub fn fitting_values()
    ensures { (d : ℤ) (row : Fixed) (expr : Expr) (kind : Kind) → kind_in (map fixed_kind row) expr ≡ Some kind → fixed_kind (meaning d row expr) ≡ kind }
{}
