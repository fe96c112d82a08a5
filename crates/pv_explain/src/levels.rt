//! The level whose entry governs a place.
ghost use Rattle.std.specs.Prelude.{◌≡◌, ◌<◌, find, length, option_map, IfSome, IsTrue};
ghost use Rattle.pv_explain.specs.Added.{level_in};
ghost use Rattle.pv_model.specs.Answers.Levels.{directory_levels, name_levels};
ghost use Rattle.pv_model.specs.Machine.{entries_of_table, is_directory_at};
ghost use Rattle.pv_model_questions.specs.ExplainMore.{governing_level, has_entry};
ghost use Rattle.pv_unveil.specs.Up.{directory_of_place};

use pv_model::{Name, Place, Target};
use pv_step_lines::answers::unveil::{Table, above};
use pv_tree::Tree;

/// A level of a place that has an entry.
#[derive(Drop)]
pub(crate) struct GoverningLevel {
    /// The target of the entry.
    pub(crate) target: Target,
    /// The number of the entry.
    pub(crate) entry: u8,
}

// Returns the first level with an entry, from a directory upwards.
fn directory_level(tree: &Tree, table: &Table, directory: u16) -> Option<GoverningLevel>
    requires { IsTrue (is_directory_at tree.now.tree directory) }
    ensures value { option_map level_in result ≡ find has_entry (directory_levels tree.now.tree (entries_of_table table.now.table) directory) }
    ensures in_table { IfSome result (λ level. level.entry < length (entries_of_table table.now.table)) }
{
    let mut reached = directory;
    for _level in 0..tree.sizes().inodes + 2 {
        if let Some(entry) = table.directory_entry(reached) {
            let target = Target::Directory(reached);
            return Some(GoverningLevel { target, entry });
        }
        let Some(above) = above(tree, reached) else {
            return None;
        };
        reached = above;
    }
    None
}

// Returns the first level with an entry: that of a name, or else one of its directory or above.
fn name_level(tree: &Tree, table: &Table, directory: u16, name: &Name) -> Option<GoverningLevel>
    requires { IsTrue (is_directory_at tree.now.tree directory) }
    ensures value { option_map level_in result ≡ find has_entry (name_levels tree.now.tree (entries_of_table table.now.table) directory name.now) }
    ensures in_table { IfSome result (λ level. level.entry < length (entries_of_table table.now.table)) }
{
    let Some(entry) = table.own_name_entry(directory, name.as_slice()) else {
        return directory_level(tree, table, directory);
    };
    let target = Target::Name {
        dir: directory,
        name: name.copy(),
    };
    Some(GoverningLevel { target, entry })
}

/// Returns the level whose entry governs a place, if an entry governs it.
#[tactic(auto, unfolding(pv_model::specs::Answers::Levels::levels))]
pub(crate) fn governing_level(tree: &Tree, table: &Table, place: &Place) -> Option<GoverningLevel>
    requires { IsTrue (is_directory_at tree.now.tree (directory_of_place place.now)) }
    ensures value { option_map level_in result ≡ governing_level tree.now.tree (entries_of_table table.now.table) place.now }
    ensures in_table { IfSome result (λ level. level.entry < length (entries_of_table table.now.table)) }
{
    match place {
        Place::Node(node) => directory_level(tree, table, *node),
        Place::At { dir, name, node } => match node {
            None => name_level(tree, table, *dir, name),
            Some(node) => {
                if tree.is_directory(*node) {
                    directory_level(tree, table, *node)
                } else {
                    name_level(tree, table, *dir, name)
                }
            }
        },
    }
}
