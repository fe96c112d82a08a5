//! Laws of manifests and bundles.
ghost use Rattle.std.specs.Prelude.{ℕ, true, false, map, Ok, Err, ◌≡◌, ◌↔◌, ◌⊎◌};
ghost use Rattle.pv_model.specs.declared.fault.ManifestFault.{ManifestFault};
ghost use Rattle.pv_model.specs.declared.fault.ManifestFault.TheVariants.{Form, Size};
ghost use Rattle.pv_model.specs.Machine.{Bytes, EncodesManifest, Manifest, read_manifest, read_bundle, data_blocks, tree_of, empty_tree, manifest_tree, Tree};
ghost use Rattle.pv_model.specs.Grammar.Applied.{AppliesAll, IsFirstRefused};
ghost use Rattle.pv_model.specs.Grammar.Entries.{IsFirstWithoutForm, HasOtherSizes};

/// Bytes parse as a manifest or as a bundle if and only if they encode it. The value of a bundle includes the lines
/// after its line `schedule`.
pub fn manifest_is_read_as_it_is_encoded()
    ensures alone { (bytes : Bytes) (m : Manifest) → read_manifest bytes ≡ Ok m ↔ EncodesManifest false bytes m }
    ensures bundle { (bytes : Bytes) (m : Manifest) → read_bundle bytes ≡ Ok m ↔ EncodesManifest true bytes m }
{}

/// A form error names the first line without the form of an entry. The lines after it matter only if an entry takes
/// them as its content.
pub fn least_line_without_form_is_named()
    ensures alone { (bytes : Bytes) (n : ℕ) → read_manifest bytes ≡ Err (Form n) ↔ IsFirstWithoutForm false bytes n }
    ensures bundle { (bytes : Bytes) (n : ℕ) → read_bundle bytes ≡ Err (Form n) ↔ IsFirstWithoutForm true bytes n }
{}

/// A size error occurs if and only if every line has its form and no image has the given sizes. Parsing reports no
/// errors other than form and size.
pub fn sizes_come_after_form()
    ensures alone { (bytes : Bytes) → read_manifest bytes ≡ Err Size ↔ HasOtherSizes false bytes }
    ensures bundle { (bytes : Bytes) → read_bundle bytes ≡ Err Size ↔ HasOtherSizes true bytes }
    ensures only_alone { (bytes : Bytes) (fault : ManifestFault) → read_manifest bytes ≡ Err fault → (fault ≡ Size) ⊎ ((n : ℕ) × (fault ≡ Form n)) }
    ensures only_bundle { (bytes : Bytes) (fault : ManifestFault) → read_bundle bytes ≡ Err fault → (fault ≡ Size) ⊎ ((n : ℕ) × (fault ≡ Form n)) }
{}

/// A manifest has a tree if and only if its entries can be added in order, and the tree is the one that they make.
pub fn tree_is_made_by_the_entries_in_order()
    ensures applied { (m : Manifest) (t : Tree) → tree_of m ≡ Ok t ↔ AppliesAll (empty_tree (data_blocks m.blocks m.inodes) m.inodes) m.listed.entries t }
    ensures made { (m : Manifest) (t : Tree) → tree_of m ≡ Ok t → t ≡ manifest_tree (data_blocks m.blocks m.inodes) m.inodes (map (λ e. e.1) m.listed.entries) }
{}

/// An error names the first entry that cannot be added after those before it, and the reason.
pub fn least_entry_that_cannot_be_applied_is_named()
    ensures { (m : Manifest) (fault : ManifestFault) → tree_of m ≡ Err fault ↔ IsFirstRefused (empty_tree (data_blocks m.blocks m.inodes) m.inodes) m.listed.entries fault }
{}
