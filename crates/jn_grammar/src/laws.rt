ghost use Rattle.std.specs.Prelude.{◌≡◌, ◌≤◌, ℕ, suc, List, [], ◌∷◌, ◌++◌, length, Option, None, Ok, Err, All};
ghost use Rattle.jn_base.specs.GrammarDecl.{IsProgram};
ghost use Rattle.jn_base.specs.declared.refusal.Limit.{Limit};
ghost use Rattle.jn_base.specs.declared.refusal.Rule.{Rule};
ghost use Rattle.jn_base.specs.declared.tree.Decl.{Decl};
ghost use Rattle.jn_base.specs.declared.tree.Place.{Place};
ghost use Rattle.jn_base.specs.declared.tree.Text.{Text};
ghost use Rattle.jn_base.specs.declared.tree.Expr.{Expr};
ghost use Rattle.jn_base.specs.declared.tree.TypeTerm.{TypeTerm};
ghost use Rattle.jn_base.specs.declared.tree.ViewTerm.{ViewTerm};
ghost use Rattle.jn_base.specs.declared.word.Lexeme.{Lexeme};
ghost use Rattle.jn_base.specs.Parts.{Part};
ghost use Rattle.jn_base.specs.Spelling.{limit_of, IsFirstRefused, SourceSpells, refusal, greatest_source, IsTextRefused};
ghost use Rattle.jn_base.specs.Words.{AreWordsOf};
ghost use Rattle.jn_grammar.specs.declared.fault.Fault.{Fault};
ghost use Rattle.jn_grammar.specs.declared.fault.Fault.TheVariants.{Syntax, Passed};
ghost use Rattle.jn_grammar.specs.Begins.{lexemes};
ghost use Rattle.jn_grammar.specs.Places.{IsSpelled, IsSyntaxAt, IsLimitAt};
ghost use Rattle.jn_grammar.specs.ReadWhole.{IsWholeExpr, whole_expr_in, IsWholeType, whole_type_in, IsWholeView, whole_view_in, program_in};
ghost use Rattle.jn_grammar.specs.TokenLimits.{checked_in, IsLast, AreClean, IsFirstFault, SameRefusal, rule_of, place_left, left_of, limit_shown};

/// What the reader of whole expressions answers, with the limits of the language. It does nothing.
///
/// A tree is spelled by the words, and what spells a tree is read, where no word passes a limit: so words have one tree.
/// A syntax fault stands at the first word with which none begins, and a limit at the word that passes it; before either
/// no word does.
pub fn whole_expressions()
    ensures found { (ws : List Lexeme) (x : Expr × List Lexeme) → whole_expr_in ws ≡ Ok x → IsSpelled IsWholeExpr ws x.0 }
    ensures only { (parts : List Part) (x : Expr) → IsWholeExpr parts x
        → All (λ (t : Part). limit_of t.role ≡ None) parts → whole_expr_in (lexemes parts) ≡ Ok (x, []) }
    ensures syntax { (ws : List Lexeme) (l : ℕ) → whole_expr_in ws ≡ Err (Syntax (suc l)) → IsSyntaxAt IsWholeExpr ws (suc l) }
    ensures limit { (ws : List Lexeme) (k : Limit) (l : ℕ) → whole_expr_in ws ≡ Err (Passed k (suc l)) → IsLimitAt IsWholeExpr ws k (suc l) }
{}

/// What the reader of whole types answers, with the limits of the language. It does nothing.
///
/// A tree is spelled by the words, and what spells a tree is read, where no word passes a limit: so words have one tree.
/// A syntax fault stands at the first word with which none begins, and a limit at the word that passes it; before either
/// no word does.
pub fn whole_types()
    ensures found { (ws : List Lexeme) (x : TypeTerm × List Lexeme) → whole_type_in ws ≡ Ok x → IsSpelled IsWholeType ws x.0 }
    ensures only { (parts : List Part) (x : TypeTerm) → IsWholeType parts x
        → All (λ (t : Part). limit_of t.role ≡ None) parts → whole_type_in (lexemes parts) ≡ Ok (x, []) }
    ensures syntax { (ws : List Lexeme) (l : ℕ) → whole_type_in ws ≡ Err (Syntax (suc l)) → IsSyntaxAt IsWholeType ws (suc l) }
    ensures limit { (ws : List Lexeme) (k : Limit) (l : ℕ) → whole_type_in ws ≡ Err (Passed k (suc l)) → IsLimitAt IsWholeType ws k (suc l) }
{}

/// What the reader of whole views answers, with the limits of the language. It does nothing.
///
/// A tree is spelled by the words, and what spells a tree is read, where no word passes a limit: so words have one tree.
/// A syntax fault stands at the first word with which none begins, and a limit at the word that passes it; before either
/// no word does.
pub fn whole_views()
    ensures found { (ws : List Lexeme) (x : ViewTerm × List Lexeme) → whole_view_in ws ≡ Ok x → IsSpelled IsWholeView ws x.0 }
    ensures only { (parts : List Part) (x : ViewTerm) → IsWholeView parts x
        → All (λ (t : Part). limit_of t.role ≡ None) parts → whole_view_in (lexemes parts) ≡ Ok (x, []) }
    ensures syntax { (ws : List Lexeme) (l : ℕ) → whole_view_in ws ≡ Err (Syntax (suc l)) → IsSyntaxAt IsWholeView ws (suc l) }
    ensures limit { (ws : List Lexeme) (k : Limit) (l : ℕ) → whole_view_in ws ≡ Err (Passed k (suc l)) → IsLimitAt IsWholeView ws k (suc l) }
{}

/// What the reader of programs answers, with the limits that the grammar counts. It does nothing.
///
/// A tree is spelled by the words, and what spells a tree is read, where no word passes a limit: so words have one tree.
/// A syntax fault stands at the first word with which none begins, and a limit at the word that passes it; before either
/// no word does.
pub fn whole_programs()
    ensures found { (ws : List Lexeme) (x : List Decl × List Lexeme) → program_in ws ≡ Ok x → IsSpelled IsProgram ws x.0 }
    ensures only { (parts : List Part) (x : List Decl) → IsProgram parts x
        → All (λ (t : Part). limit_of t.role ≡ None) parts → program_in (lexemes parts) ≡ Ok (x, []) }
    ensures syntax { (ws : List Lexeme) (l : ℕ) → program_in ws ≡ Err (Syntax (suc l)) → IsSyntaxAt IsProgram ws (suc l) }
    ensures limit { (ws : List Lexeme) (k : Limit) (l : ℕ) → program_in ws ≡ Err (Passed k (suc l)) → IsLimitAt IsProgram ws k (suc l) }
{}

/// What the reader of programs answers with all limits of words: those that the grammar counts, masks and names. It does nothing.
///
/// What is read is a program, its words are clean, and none of the first three steps refuses them; a program whose words are
/// clean is read. Otherwise the fault is the first refusal: a syntax fault at the first word with which no program begins,
/// a limit at the word that passes it, the earlier word first, at one word the syntax fault, and of two limits the first by rank.
/// The last word is the end of the file or the first lexical fault. Words have one first refusal at most.
pub fn checked_programs()
    ensures found { (ws : List Lexeme) (x : List Decl × List Lexeme) → checked_in ws ≡ Ok x → IsSpelled IsProgram ws x.0 }
    ensures clean { (ws : List Lexeme) (x : List Decl × List Lexeme) → checked_in ws ≡ Ok x → AreClean ws }
    ensures only { (parts : List Part) (x : List Decl) → IsProgram parts x → AreClean (lexemes parts) → checked_in (lexemes parts) ≡ Ok (x, []) }
    ensures refused { (front : List Lexeme) (last : Lexeme) (f : Fault) → IsLast last.word → checked_in (front ++ last ∷ []) ≡ Err f
        → IsFirstFault (front ++ last ∷ []) f }
    ensures not_refused { (ws : List Lexeme) (x : List Decl × List Lexeme) → checked_in ws ≡ Ok x
        → (r : Rule) (at : Place) (l : Option Limit) → IsFirstRefused ws r at l → ⊥ }
    ensures once { (ws : List Lexeme) (r q : Rule) (at p : Place) (l m : Option Limit) → IsFirstRefused ws r at l → IsFirstRefused ws q p m
        → SameRefusal r q at p l m }
{}

/// What it answers of the words of a source. It does nothing.
///
/// A source whose words are read is that of the program with their tree. Otherwise the verdict's first steps refuse it, by the
/// fault's rule, place and limit.
pub fn checked_sources()
    ensures spelled { (bytes : List ℕ) (ns texts : List Text) (ws : List Lexeme) (x : List Decl × List Lexeme) → AreWordsOf bytes ns texts ws
        → checked_in ws ≡ Ok x → SourceSpells (record { names = ns; texts = texts; decls = x.0 }) bytes }
    ensures refused { (bytes : List ℕ) (ns texts : List Text) (ws : List Lexeme) (f : Fault) → length bytes ≤ greatest_source
        → AreWordsOf bytes ns texts ws → checked_in ws ≡ Err f
        → IsTextRefused bytes (refusal (rule_of f) (place_left ws (left_of f)) (limit_shown f)) }
{}
