//! The elements of a page, and the names of their attributes.
ghost use Rattle.std.specs.Prelude.{◌≡◌};
ghost use Rattle.pb_markup.specs.Names as spec;

/// An element.
#[derive(Clone, Copy)]
pub enum Tag {
    Html,
    Head,
    Title,
    Meta,
    Style,
    Body,
    Header,
    Main,
    Section,
    Footer,
    Nav,
    H1,
    H2,
    H3,
    P,
    Div,
    Span,
    Strong,
    Small,
    Code,
    Bdi,
    Br,
    A,
    Ul,
    Ol,
    Li,
    Dl,
    Dt,
    Dd,
    Table,
    Caption,
    Thead,
    Tbody,
    Tr,
    Th,
    Td,
    Details,
    Summary,
    Input,
    Label,
    Fieldset,
    Legend,
}

/// The name of an attribute.
#[derive(Clone, Copy)]
pub enum Name {
    Class,
    Id,
    Lang,
    Dir,
    Title,
    /// A place on the page itself: the value is its id, and `#` is written before it.
    Href,
    /// A share of a whole, as CSS sees it: the value is a number, and is written as the property `--share`.
    Share,
    /// The places by which CSS orders rows: the value is the first and is written as the property `--cost`, and behind
    /// it may stand others, each with its property.
    Order,
    Role,
    AriaLabel,
    AriaLabelledby,
    AriaDescribedby,
    AriaHidden,
    AriaSort,
    Scope,
    Colspan,
    Rowspan,
    Charset,
    /// The attribute `name`.
    Name,
    Content,
    HttpEquiv,
    Open,
    Type,
    For,
    Checked,
    Value,
    Tabindex,
}

impl Tag {
    /// Its name.
    pub fn name(self) -> &'static str
        ensures { result.now ≡ spec.tag_name self }
    {
        match self {
            Tag::Html => "html",
            Tag::Head => "head",
            Tag::Title => "title",
            Tag::Meta => "meta",
            Tag::Style => "style",
            Tag::Body => "body",
            Tag::Header => "header",
            Tag::Main => "main",
            Tag::Section => "section",
            Tag::Footer => "footer",
            Tag::Nav => "nav",
            Tag::H1 => "h1",
            Tag::H2 => "h2",
            Tag::H3 => "h3",
            Tag::P => "p",
            Tag::Div => "div",
            Tag::Span => "span",
            Tag::Strong => "strong",
            Tag::Small => "small",
            Tag::Code => "code",
            Tag::Bdi => "bdi",
            Tag::Br => "br",
            Tag::A => "a",
            Tag::Ul => "ul",
            Tag::Ol => "ol",
            Tag::Li => "li",
            Tag::Dl => "dl",
            Tag::Dt => "dt",
            Tag::Dd => "dd",
            Tag::Table => "table",
            Tag::Caption => "caption",
            Tag::Thead => "thead",
            Tag::Tbody => "tbody",
            Tag::Tr => "tr",
            Tag::Th => "th",
            Tag::Td => "td",
            Tag::Details => "details",
            Tag::Summary => "summary",
            Tag::Input => "input",
            Tag::Label => "label",
            Tag::Fieldset => "fieldset",
            Tag::Legend => "legend",
        }
    }

    /// Whether it has no content, and no end.
    pub fn is_void(self) -> bool
        ensures { result ≡ spec.is_void self }
    {
        matches!(self, Tag::Meta | Tag::Br | Tag::Input)
    }
}

impl Name {
    /// How an attribute of this name begins, up to its value.
    pub fn opening(self) -> &'static str
        ensures { result.now ≡ spec.opening self }
    {
        match self {
            Name::Class => " class=\"",
            Name::Id => " id=\"",
            Name::Lang => " lang=\"",
            Name::Dir => " dir=\"",
            Name::Title => " title=\"",
            Name::Href => " href=\"#",
            Name::Share => " style=\"--share:",
            Name::Order => " style=\"--cost:",
            Name::Role => " role=\"",
            Name::AriaLabel => " aria-label=\"",
            Name::AriaLabelledby => " aria-labelledby=\"",
            Name::AriaDescribedby => " aria-describedby=\"",
            Name::AriaHidden => " aria-hidden=\"",
            Name::AriaSort => " aria-sort=\"",
            Name::Scope => " scope=\"",
            Name::Colspan => " colspan=\"",
            Name::Rowspan => " rowspan=\"",
            Name::Charset => " charset=\"",
            Name::Name => " name=\"",
            Name::Content => " content=\"",
            Name::HttpEquiv => " http-equiv=\"",
            Name::Open => " open=\"",
            Name::Type => " type=\"",
            Name::For => " for=\"",
            Name::Checked => " checked=\"",
            Name::Value => " value=\"",
            Name::Tabindex => " tabindex=\"",
        }
    }
}
