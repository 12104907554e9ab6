//! The tree of a justfile: one variant for each form of an item and of an expression, one field for each of its parts in
//! their order. Lines and columns count from 1, columns in characters.
ghost use Rattle.std.specs.Prelude.{◌≡◌};

use just_lang_read::{Boxed, Quote};
use just_path_text::{Seq, Text};

/// The items of a justfile in their order.
#[derive(Drop)]
pub struct Ast {
    pub items: Seq<AstItem>,
}

/// An item of a justfile. A comment is one behind the item on its line, from its `#` on.
pub enum AstItem {
    /// A line with nothing but blanks, outside bodies.
    Blank,
    /// A line that begins with `#`, whole.
    Comment(Text),
    /// `alias NAME := PATH`
    Alias {
        name: Name,
        target: Seq<Name>,
        comment: Option<Text>,
    },
    /// `import STRING`, or `import? STRING`
    Import {
        optional: bool,
        path: StringLiteral,
        comment: Option<Text>,
    },
    /// `mod NAME`, `mod NAME STRING`, or with a `?` behind `mod`
    Module {
        attributes: Seq<Attribute>,
        optional: bool,
        name: Name,
        path: Option<StringLiteral>,
        comment: Option<Text>,
    },
    /// `NAME := EXPR`, or with `export` in front
    Assignment {
        export: bool,
        name: Name,
        value: Expr,
        comment: Option<Text>,
    },
    /// `unexport NAME`
    Unexport {
        name: Name,
        comment: Option<Text>,
    },
    /// `set NAME`, or `set NAME := VALUE`
    Setting {
        name: Name,
        value: Option<SettingValue>,
        comment: Option<Text>,
    },
    Recipe(Boxed<AstRecipe>),
}

impl Drop for AstItem {
    fn drop(self) {
        match self {
            AstItem::Blank => {}
            AstItem::Recipe(_) => {}
            AstItem::Comment(text) => drop(text),
            AstItem::Alias {
                name: _,
                target: _,
                comment,
            } => drop(comment),
            AstItem::Import {
                optional: _,
                path: _,
                comment,
            } => drop(comment),
            AstItem::Module {
                attributes: _,
                optional: _,
                name: _,
                path,
                comment,
            } => {
                drop(path);
                drop(comment);
            }
            AstItem::Assignment {
                export: _,
                name: _,
                value,
                comment,
            } => {
                drop(value);
                drop(comment);
            }
            AstItem::Unexport { name: _, comment } => drop(comment),
            AstItem::Setting {
                name: _,
                value,
                comment,
            } => {
                drop(value);
                drop(comment);
            }
        }
    }
}

/// A name, with its place.
pub struct Name {
    pub text: Text,
    pub line: usize,
    pub column: usize,
}

impl Drop for Name {
    fn drop(self) {
        let Name {
            text: _,
            line: _,
            column: _,
        } = self;
    }
}

/// What stands behind the `:=` of a setting.
pub enum SettingValue {
    Bool(bool),
    Text(Expr),
    List(Seq<StringLiteral>),
}

impl Drop for SettingValue {
    fn drop(self) {
        match self {
            SettingValue::Bool(_) => {}
            SettingValue::List(_) => {}
            SettingValue::Text(value) => drop(value),
        }
    }
}

/// A string as it is written, with the place of its first character.
pub struct StringLiteral {
    /// Whether an `x` stands in front.
    pub expands: bool,
    pub quote: Quote,
    /// What stands between the quotes.
    pub raw: Text,
    pub line: usize,
    pub column: usize,
}

impl Drop for StringLiteral {
    fn drop(self) {
        let StringLiteral {
            expands: _,
            quote: _,
            raw: _,
            line: _,
            column: _,
        } = self;
    }
}

/// What a condition asks of two texts.
#[derive(Clone, Copy)]
pub enum Comparison {
    /// `==`
    Equal,
    /// `!=`
    Unequal,
}

/// An expression.
#[derive(Drop)]
pub enum Expr {
    /// `if LEFT == RIGHT { CONSEQUENT } else { ALTERNATIVE }`; it is chained where another `if` stands in place of the
    /// last block.
    If {
        left: Boxed<Expr>,
        comparison: Comparison,
        right: Boxed<Expr>,
        consequent: Boxed<Expr>,
        chained: bool,
        alternative: Boxed<Expr>,
    },
    /// `/ EXPR`
    Root(Boxed<Expr>),
    /// `VALUE / EXPR`
    Join(Boxed<Expr>, Boxed<Expr>),
    /// `VALUE + EXPR`
    Concat(Boxed<Expr>, Boxed<Expr>),
    Literal(StringLiteral),
    Variable(Name),
    /// `(EXPR)`
    Group(Boxed<Expr>),
    /// `env(KEY)`, or `env(KEY, DEFAULT)`, with the place of `env`
    Env {
        line: usize,
        column: usize,
        key: Boxed<Expr>,
        default: Option<Boxed<Expr>>,
    },
}

/// An attribute in brackets: `NAME`, `NAME: STRING` or `NAME(ARGUMENT, ..)`. The comment is the one behind its line's
/// bracket, which the last attribute of the line has.
pub struct Attribute {
    pub name: Name,
    /// Whether its one argument stands behind a colon.
    pub colon: bool,
    pub arguments: Seq<Argument>,
    pub comment: Option<Text>,
}

impl Drop for Attribute {
    fn drop(self) {
        let Attribute {
            name: _,
            colon: _,
            arguments: _,
            comment,
        } = self;
        drop(comment);
    }
}

impl Attribute {
    /// The attribute with this comment in place of its own.
    pub(crate) fn commented(mut self, comment: Option<Text>) -> Attribute
        ensures { result ≡ record self { comment = comment } }
    {
        self.comment = comment;
        self
    }
}

/// An argument of an attribute: `EXPR`, or `KEY=EXPR`; with the place of the expression.
pub struct Argument {
    pub key: Option<Name>,
    pub line: usize,
    pub column: usize,
    pub value: Expr,
}

impl Drop for Argument {
    fn drop(self) {
        let Argument {
            key,
            line: _,
            column: _,
            value,
        } = self;
        drop(key);
        drop(value);
    }
}

impl Argument {
    ghost use Rattle.just_lang_syntax.specs.Attributes.{is_key_or};

    /// Whether the argument has this key, with a value or alone.
    pub fn is_of_key(&self, key: &str) -> bool
        ensures { result ≡ is_key_or key.now self.now.key self.now.value }
    {
        match &self.key {
            Some(name) => name.text.as_str() == key,
            None => match &self.value {
                Expr::Variable(name) => name.text.as_str() == key,
                _ => false,
            },
        }
    }
}

/// A recipe as it is written. The comment is the one behind the recipe's line.
pub struct AstRecipe {
    pub attributes: Seq<Attribute>,
    /// Whether an `@` stands before the name.
    pub quiet: bool,
    pub name: Name,
    pub parameters: Seq<AstParameter>,
    pub priors: Seq<AstDependency>,
    pub subsequents: Seq<AstDependency>,
    pub comment: Option<Text>,
    pub body: Seq<Line>,
}

impl Drop for AstRecipe {
    fn drop(self) {
        let AstRecipe {
            attributes: _,
            quiet: _,
            name: _,
            parameters: _,
            priors: _,
            subsequents: _,
            comment,
            body: _,
        } = self;
        drop(comment);
    }
}

impl AstRecipe {
    /// The recipe with these dependencies and this comment in place of its own.
    pub(crate) fn depending(
        mut self,
        priors: Seq<AstDependency>,
        subsequents: Seq<AstDependency>,
        comment: Option<Text>,
    ) -> AstRecipe
        ensures { result
            ≡ record self { priors = priors; subsequents = subsequents; comment = comment } }
    {
        self.priors = priors;
        self.subsequents = subsequents;
        self.comment = comment;
        self
    }

    /// The recipe with this body in place of its own.
    pub(crate) fn with_lines(mut self, body: Seq<Line>) -> AstRecipe
        ensures { result ≡ record self { body = body } }
    {
        self.body = body;
        self
    }
}

/// How many values a parameter takes.
#[derive(Clone, Copy, PartialEq, Eq)]
pub enum ParameterKind {
    /// One.
    Singular,
    /// `+`: one or more.
    Plus,
    /// `*`: any number.
    Star,
}

/// A parameter of a recipe's line.
pub struct AstParameter {
    pub kind: ParameterKind,
    /// Whether a `$` stands before the name.
    pub export: bool,
    pub name: Name,
    pub default: Option<Expr>,
}

impl Drop for AstParameter {
    fn drop(self) {
        let AstParameter {
            kind: _,
            export: _,
            name: _,
            default,
        } = self;
        drop(default);
    }
}

/// A recipe that another one depends on: a path, or a path with arguments in parentheses.
pub struct AstDependency {
    pub path: Seq<Name>,
    /// Whether it stands in parentheses.
    pub grouped: bool,
    pub arguments: Seq<Expr>,
}

impl Drop for AstDependency {
    fn drop(self) {
        let AstDependency {
            path: _,
            grouped: _,
            arguments: _,
        } = self;
    }
}

/// A line of a body, without the body's indentation; a blank one has no fragments.
pub struct Line {
    /// The number of the line on which it begins.
    pub number: usize,
    pub fragments: Seq<Fragment>,
}

impl Drop for Line {
    fn drop(self) {
        let Line {
            number: _,
            fragments: _,
        } = self;
    }
}

/// A part of a body line.
pub enum Fragment {
    /// A text, in which `{{{{` has become `{{`.
    Text(Text),
    /// `{{ EXPR }}`
    Value(Expr),
}

impl Drop for Fragment {
    fn drop(self) {
        match self {
            Fragment::Text(text) => drop(text),
            Fragment::Value(value) => drop(value),
        }
    }
}
