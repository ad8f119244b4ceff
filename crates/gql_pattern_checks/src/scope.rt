//! What may be named at a place of a pattern.

ghost use Rattle.std.specs.Prelude.{◌≡◌, ◌++◌, map, OnOk};
ghost use Rattle.gql_expr_checks.specs.Machinery.Knowing.{first_kind};
ghost use Rattle.gql_pattern_checks.specs.Machinery.Marks.{marks_of, cut_to};
ghost use Rattle.gql_pattern_checks.specs.Machinery.Scopes.{known_columns, no_names, path_column, variable_column, with_path_name, with_variable, with_variable_of};

use gql_expr_checks::{KnownColumns, NameList};
use gql_values3::{ColumnKind, OutOfMemory, Text};
use std::alloc::Global;

/// The names beside the incoming columns: path names, variables, and those of the variables that are groups.
#[derive(Drop)]
pub struct Names {
    pub paths: NameList,
    pub variables: NameList,
    pub groups: NameList,
}

/// How many variables and groups there were.
#[derive(Clone, Copy, Debug, PartialEq, Eq)]
pub struct Marks {
    pub variables: usize,
    pub groups: usize,
}

impl Names {
    /// Nothing.
    pub fn new(alloc: Global) -> Names
        ensures { result ≡ no_names }
    {
        Names {
            paths: NameList::new(alloc),
            variables: NameList::new(alloc),
            groups: NameList::new(alloc),
        }
    }

    /// What a name stands for, where it is an incoming column or one of these names. Which element a variable is doesn't matter here.
    pub fn kind(&self, columns: &KnownColumns, name: &Text) -> Option<ColumnKind>
        ensures { result ≡ first_kind (known_columns columns.now self.now) name.now }
    {
        if columns.contains(name) {
            Some(columns.kind(name))
        } else {
            self.own_kind(name)
        }
    }

    fn own_kind(&self, name: &Text) -> Option<ColumnKind>
        ensures { result ≡ first_kind (map path_column self.now.paths ++ map (variable_column self.now.groups) self.now.variables) name.now }
    {
        if self.paths.contains(name) {
            Some(ColumnKind::Path)
        } else if self.variables.contains(name) {
            Some(self.variable_kind(name))
        } else {
            None
        }
    }

    fn variable_kind(&self, name: &Text) -> ColumnKind
        ensures { result ≡ (variable_column self.now.groups name.now).1 }
    {
        if self.groups.contains(name) {
            ColumnKind::Nodes
        } else {
            ColumnKind::Node
        }
    }

    /// Adds a variable, which is a group or not.
    fn add(&mut self, alloc: Global, is_group: bool, name: &Text) -> Result<(), OutOfMemory>
        ensures { OnOk result (self.new ≡ with_variable is_group self.old name.now) }
    {
        self.variables.add(alloc, name)?;
        if is_group {
            self.groups.add(alloc, name)?;
        }
        Ok(())
    }

    /// Adds the variable of an element, if it has one.
    pub fn add_variable(
        &mut self,
        alloc: Global,
        is_group: bool,
        variable: &Option<Text>,
    ) -> Result<(), OutOfMemory>
        ensures { OnOk result (self.new ≡ with_variable_of is_group self.old variable.now) }
    {
        match variable {
            Some(name) => self.add(alloc, is_group, name),
            None => Ok(()),
        }
    }

    /// Adds a path name, if there is one and no variable before it has the name.
    pub fn add_path_name(&mut self, alloc: Global, name: &Option<Text>) -> Result<(), OutOfMemory>
        ensures { OnOk result (self.new ≡ with_path_name self.old name.now) }
    {
        match name {
            Some(name) if !self.variables.contains(name) => self.paths.add(alloc, name),
            _ => Ok(()),
        }
    }

    /// How many there are.
    pub fn marks(&self) -> Marks
        ensures { result ≡ marks_of self.now }
    {
        Marks {
            variables: self.variables.len(),
            groups: self.groups.len(),
        }
    }

    /// Takes away the variables that came behind the marks.
    pub fn cut(&mut self, marks: &Marks)
        ensures { self.new ≡ cut_to marks.now self.old }
    {
        self.variables.truncate(marks.variables);
        self.groups.truncate(marks.groups);
    }
}
