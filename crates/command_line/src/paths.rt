//! Where the files of a configuration are.

use relay_files::{LongestName, Role};

/// Where the files of a configuration are, and the limit on names that comes with them.
#[derive(Drop)]
pub struct Paths {
    pub config: String,
    pub rules: Option<String>,
    pub rewrite: Option<String>,
    /// The length above which names are dropped, if any.
    pub longest_name: Option<LongestName>,
}

impl Paths {
    /// The path of the file with a role, if there is one.
    pub fn path_of(&self, role: Role) -> Option<&str> {
        let path = match role {
            Role::Config => return Some(self.config.as_str()),
            Role::Rules => &self.rules,
            Role::Rewrite => &self.rewrite,
            Role::Names | Role::Script => return None,
        };
        match path {
            Some(path) => Some(path.as_str()),
            None => None,
        }
    }
}
