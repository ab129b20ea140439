//! What is written of a node.

/// How the value of a node is written.
#[derive(Debug, Clone, Copy, PartialEq, Eq)]
pub enum ValueForm {
    /// It is not.
    Omitted,
    /// By its compact text.
    Compact,
    /// A string by its characters, any other value by its compact text.
    Raw,
}

/// What is written of each node: its normalized path, its value, or both with a tab between.
#[derive(Debug, Clone, Copy, PartialEq, Eq)]
pub struct Form {
    /// Whether the normalized path is written.
    pub has_path: bool,
    /// How the value is.
    pub value: ValueForm,
}

impl Form {
    /// The compact text of the value.
    pub const VALUES: Form = Form {
        has_path: false,
        value: ValueForm::Compact,
    };

    /// The normalized path.
    pub const PATHS: Form = Form {
        has_path: true,
        value: ValueForm::Omitted,
    };

    /// The normalized path, a tab and the compact text of the value.
    pub const BOTH: Form = Form {
        has_path: true,
        value: ValueForm::Compact,
    };

    /// The value, raw.
    pub const RAW_VALUES: Form = Form {
        has_path: false,
        value: ValueForm::Raw,
    };

    /// The normalized path, a tab and the value, raw.
    pub const RAW_BOTH: Form = Form {
        has_path: true,
        value: ValueForm::Raw,
    };
}
