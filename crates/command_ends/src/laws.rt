//! The laws of the words and of the end of a run. Each function does nothing, and its contract is a law.

ghost use Rattle.std.specs.Prelude.{◌≡◌, ◌≢◌, ◌⊎◌, ◌↔◌, ◌≤◌, ◌<◌, ℕ, Option, None, Some, List, [], String, false, true};
ghost use Rattle.std.specs.Prelude.{length, codes, IfSome, ◌∷◌};
ghost use Rattle.std.specs.Io.KnownBytes.{Appends, Keeps, IsAtEnd};
ghost use Rattle.std.specs.declared.alloc.Global.{Global};
ghost use Rattle.byte_ends.specs.Ends.{AppendsFront, Rose};
ghost use Rattle.point_order.specs.Solid.{is_solid};
ghost use Rattle.bucket_grid.specs.Grids.{is_grid_size};
ghost use Rattle.edit_history.specs.Histories.{replay};
ghost use Rattle.edit_history.specs.OneThread.{Keeps as FileKeeps};
ghost use Rattle.edit_files.specs.Content.{Content};
ghost use Rattle.edit_files.specs.Grammar.{IsFile};
ghost use Rattle.mesh_reader.specs.Grammar.{IsMeshText, MeshParts};
ghost use Rattle.nearest_points.specs.declared.answers.Near.{Near};
ghost use Rattle.nearest_points.specs.Points.{AreNear};
ghost use Rattle.near_texts.specs.Text.{near_text};
ghost use Rattle.mesh_check.specs.declared.flaw.Verdict.{Verdict};
ghost use Rattle.mesh_check.specs.Flaws.{IsVerdict, as_cells};
ghost use Rattle.mesh_check.specs.Text.{verdict_text};
ghost use Rattle.command_pages.specs.Checked.{HasMeshFault, IsTrueMesh, IsMeshWithin};
ghost use Rattle.command_pages.specs.Run.{file_limits, HasFault, IsSolidFile, history_of, input_limit, mesh_limit};
ghost use Rattle.command_ends.specs.Drawn.{drawn_file, drawn_text};
ghost use Rattle.command_ends.specs.Ends.{ARun};
ghost use Rattle.command_ends.specs.Parted.{HasNoAlpha, HasNoPart, IsParted};
ghost use Rattle.command_ends.specs.PlainText.{plain_drawn, plain_points};
ghost use Rattle.command_ends.specs.Queried.{IsQueried};
ghost use Rattle.command_pages.specs.Statuses.{HasText, IsEarly, IsWrittenWhole};
ghost use Rattle.command_ends.specs.Stepped.{IsStepped};
ghost use Rattle.plain_laws.specs.Plain.{IsAnchored};
ghost use Rattle.command_words.specs.Words.{ReadsFile, ReadsSource, asked_alpha, asked_index, asked_most, asks_order};
ghost use Rattle.command_words.specs.Words.{asks_shape, asks_text, drawn_count, drawn_start, grid_size, most_alpha};
ghost use Rattle.command_words.specs.Words.{most_index, most_start, most_workers, worker_count, AreWordsTaken, Asks};
ghost use Rattle.command_words.specs.Words.{Checks, Draws, Parts, Queries, Reports, Say, Steps, gen_line, meshing_line};
ghost use Rattle.command_words.specs.Words.{parts_line};
ghost use Rattle.edit_files.specs.Generator.{most_edits};

/// The words `mesh` and `shape` alone are taken, and ask for no order block; with `--order` they ask for it. Both write
/// the report of a file, by one worker over a grid of 4, as `steps` writes its least alphas, `parts` its parts at alpha
/// 0 and `near` the answers to its queries. So are `mesh`, `shape`, `steps`, `parts` and `near` with `--workers=N` and
/// `--grid=M`, for every count of workers and every size of a grid, and `parts` with `--alpha=A`, `--most=K` and
/// `--off=I` for every A, K and I of their ranges. The word `check` alone is taken, and asks for the verdict on a mesh.
/// The words `gen`, `--count=N` and `--start=M` are taken for every count and start, and with `--text` ask for the
/// file's text.
pub fn words_are_taken()
    ensures mesh { (words : List (String Global)) → Say (codes "mesh" ∷ []) words
        → AreWordsTaken words × (asks_shape words ≡ false) × (asks_order words ≡ false) }
    ensures mesh_order { (words : List (String Global)) → Say (codes "mesh" ∷ codes "--order" ∷ []) words
        → AreWordsTaken words × (asks_shape words ≡ false) × (asks_order words ≡ true) }
    ensures shape { (words : List (String Global)) → Say (codes "shape" ∷ []) words
        → AreWordsTaken words × (asks_shape words ≡ true) × (asks_order words ≡ false) }
    ensures shape_order { (words : List (String Global)) → Say (codes "shape" ∷ codes "--order" ∷ []) words
        → AreWordsTaken words × (asks_shape words ≡ true) × (asks_order words ≡ true) }
    ensures one_worker { (words : List (String Global)) →
        Say (codes "mesh" ∷ []) words ⊎ Say (codes "mesh" ∷ codes "--order" ∷ []) words
        ⊎ Say (codes "shape" ∷ []) words ⊎ Say (codes "shape" ∷ codes "--order" ∷ []) words
        → (worker_count words ≡ 1) × (grid_size words ≡ 4) }
    ensures report { (words : List (String Global)) →
        Say (codes "mesh" ∷ []) words ⊎ Say (codes "mesh" ∷ codes "--order" ∷ []) words
        ⊎ Say (codes "shape" ∷ []) words ⊎ Say (codes "shape" ∷ codes "--order" ∷ []) words
        → Asks Reports words }
    ensures steps { (words : List (String Global)) → Say (codes "steps" ∷ []) words
        → AreWordsTaken words × Asks Steps words
        × (worker_count words ≡ 1) × (grid_size words ≡ 4) }
    ensures parts { (words : List (String Global)) → Say (codes "parts" ∷ []) words
        → AreWordsTaken words × Asks Parts words
        × (worker_count words ≡ 1) × (grid_size words ≡ 4) × (asked_alpha words ≡ 0) × (asked_most words ≡ 0)
        × (asked_index words ≡ None) }
    ensures near { (words : List (String Global)) → Say (codes "near" ∷ []) words
        → AreWordsTaken words × Asks Queries words
        × (worker_count words ≡ 1) × (grid_size words ≡ 4) }
    ensures check { (words : List (String Global)) → Say (codes "check" ∷ []) words
        → AreWordsTaken words × Asks Checks words }
    ensures parts_at { (words : List (String Global)) (alpha most index : ℕ) → alpha ≤ most_alpha
        → most ≤ most_index → index ≤ most_index → Say (parts_line alpha most index) words
        → AreWordsTaken words × Asks Parts words × (worker_count words ≡ 1) × (grid_size words ≡ 4)
        × (asked_alpha words ≡ alpha) × (asked_most words ≡ most) × (asked_index words ≡ Some index) }
    ensures mesh_workers { (words : List (String Global)) (workers grid : ℕ) → 0 < workers → workers ≤ most_workers
        → is_grid_size grid ≡ true → Say (meshing_line (codes "mesh") workers grid) words → AreWordsTaken words
        × (worker_count words ≡ workers) × (grid_size words ≡ grid) × (asks_shape words ≡ false)
        × Asks Reports words }
    ensures shape_workers { (words : List (String Global)) (workers grid : ℕ) → 0 < workers → workers ≤ most_workers
        → is_grid_size grid ≡ true → Say (meshing_line (codes "shape") workers grid) words → AreWordsTaken words
        × (worker_count words ≡ workers) × (grid_size words ≡ grid) × (asks_shape words ≡ true)
        × Asks Reports words }
    ensures steps_workers { (words : List (String Global)) (workers grid : ℕ) → 0 < workers → workers ≤ most_workers
        → is_grid_size grid ≡ true → Say (meshing_line (codes "steps") workers grid) words → AreWordsTaken words
        × (worker_count words ≡ workers) × (grid_size words ≡ grid) × Asks Steps words }
    ensures parts_workers { (words : List (String Global)) (workers grid : ℕ) → 0 < workers → workers ≤ most_workers
        → is_grid_size grid ≡ true → Say (meshing_line (codes "parts") workers grid) words → AreWordsTaken words
        × (worker_count words ≡ workers) × (grid_size words ≡ grid) × Asks Parts words }
    ensures near_workers { (words : List (String Global)) (workers grid : ℕ) → 0 < workers → workers ≤ most_workers
        → is_grid_size grid ≡ true → Say (meshing_line (codes "near") workers grid) words → AreWordsTaken words
        × (worker_count words ≡ workers) × (grid_size words ≡ grid) × Asks Queries words }
    ensures generator { (words : List (String Global)) (count start : ℕ) → count ≤ most_edits → start ≤ most_start
        → Say (gen_line count start []) words → AreWordsTaken words × Asks Draws words × (drawn_count words ≡ count)
        × (drawn_start words ≡ start) × (asks_text words ≡ false) }
    ensures generator_text { (words : List (String Global)) (count start : ℕ) → count ≤ most_edits
        → start ≤ most_start → Say (gen_line count start (codes "--text" ∷ [])) words
        → AreWordsTaken words × Asks Draws words × (drawn_count words ≡ count) × (drawn_start words ≡ start)
        × (asks_text words ≡ true) }
    ensures read { (words : List (String Global))
        → Asks Reports words ⊎ Asks Steps words ⊎ Asks Parts words ⊎ Asks Queries words → ReadsFile words }
    ensures read_mesh { (words : List (String Global)) → Asks Checks words → ReadsSource words }
{}

/// No status above 10 comes, 8 and 9 only of `parts`, and 10 only of `check`. On all but 0, 4 and 10 nothing is
/// written, and on all but 0, 4, 8 and 9 nothing is kept. A run that reads and ends with 0, 8, 9 or 10 has read to the
/// end.
pub fn run_by_status()
    ensures statuses { (r : ARun) → r.status ≤ 10 }
    ensures of_parts { (r : ARun) → (r.status ≡ 8) ⊎ (r.status ≡ 9) → Asks Parts r.words }
    ensures of_check { (r : ARun) → r.status ≡ 10 → Asks Checks r.words }
    ensures none_kept { (r : ARun) → r.status ≢ 0 → r.status ≢ 4 → r.status ≢ 8 → r.status ≢ 9 → r.kept ≡ [] }
    ensures nothing { (r : ARun) → r.status ≢ 0 → r.status ≢ 4 → r.status ≢ 10 → Keeps r.held r.holds }
    ensures to_its_end { (r : ARun) → ReadsSource r.words → IsWrittenWhole r.status → IsAtEnd r.left_after }
{}

/// A run that reads a file: what its status tells of the bytes.
pub fn run_that_reads()
    ensures too_long { (r : ARun) → ReadsFile r.words → (IsEarly r.status → ⊥)
        → IfSome r.left (λ bytes. r.status ≡ 7 ↔ (input_limit < length bytes)) }
    ensures bad_line { (r : ARun) → ReadsFile r.words → (IsEarly r.status → ⊥) → r.status ≢ 7
        → IfSome r.left (λ bytes. r.status ≡ 5 ↔ HasFault bytes) }
    ensures not_solid { (r : ARun) → ReadsFile r.words → (IsEarly r.status → ⊥) → r.status ≢ 7
        → IfSome r.left (λ bytes. (file : Content) → IsFile file_limits bytes file
        → (r.status ≡ 6 ↔ (is_solid file.points ≡ false))) }
{}

/// A run that is to write the least alphas: on 0 the whole text of those of the points that its history leaves is
/// written, and on 4 a front of it. Of a solid file within the limit it ends with 0 unless memory is wanting or the
/// source or the output fails.
pub fn run_that_steps()
    ensures statuses { (r : ARun) → Asks Steps r.words → r.status ≤ 7 }
    ensures written { (r : ARun) → Asks Steps r.words → r.status ≡ 0
        → IfSome r.left (λ bytes. (text : List ℕ) × IsStepped (replay r.kept) text × Appends r.held r.holds text) }
    ensures front { (r : ARun) → Asks Steps r.words → r.status ≡ 4
        → IfSome r.left (λ bytes. (text : List ℕ) × IsStepped (replay r.kept) text
        × AppendsFront r.held r.holds text) }
    ensures complete { (r : ARun) → AreWordsTaken r.words → Asks Steps r.words
        → IfSome r.left (λ bytes. IsSolidFile bytes → (Rose r.read_faults r.read_faults_after → ⊥)
        → (Rose r.write_faults r.write_faults_after → ⊥) → (r.status ≡ 0) ⊎ (r.status ≡ 1)) }
{}

/// Where no edit takes one of the opening four, or moves it, what `steps`, `parts` and `near` write goes by the file
/// and the command alone, whatever the number of workers and the grid: it is the text of the points that the file's
/// lines tell by themselves. So do the statuses 9 and 8 of `parts`.
pub fn run_of_an_anchored_file()
    ensures steps { (r : ARun) → Asks Steps r.words → r.status ≡ 0
        → IfSome r.left (λ bytes. (file : Content) → IsFile file_limits bytes file
        → IsAnchored file.points file.edits
        → (text : List ℕ) × IsStepped (plain_points file) text × Appends r.held r.holds text) }
    ensures steps_front { (r : ARun) → Asks Steps r.words → r.status ≡ 4
        → IfSome r.left (λ bytes. (file : Content) → IsFile file_limits bytes file
        → IsAnchored file.points file.edits
        → (text : List ℕ) × IsStepped (plain_points file) text × AppendsFront r.held r.holds text) }
    ensures parts { (r : ARun) → Asks Parts r.words → r.status ≡ 0
        → IfSome r.left (λ bytes. (file : Content) → IsFile file_limits bytes file
        → IsAnchored file.points file.edits
        → (text : List ℕ) × IsParted (plain_points file) (asked_alpha r.words) (asked_most r.words)
        (asked_index r.words) 0 text × Appends r.held r.holds text) }
    ensures parts_front { (r : ARun) → Asks Parts r.words → r.status ≡ 4
        → IfSome r.left (λ bytes. (file : Content) → IsFile file_limits bytes file
        → IsAnchored file.points file.edits
        → (text : List ℕ) × IsParted (plain_points file) (asked_alpha r.words) (asked_most r.words)
        (asked_index r.words) 0 text × AppendsFront r.held r.holds text) }
    ensures no_alpha { (r : ARun) → Asks Parts r.words → HasText r.status
        → IfSome r.left (λ bytes. (file : Content) → IsFile file_limits bytes file
        → IsAnchored file.points file.edits
        → r.status ≡ 9 ↔ HasNoAlpha (plain_points file) (asked_most r.words)) }
    ensures no_part { (r : ARun) (i : ℕ) → Asks Parts r.words → HasText r.status → asked_index r.words ≡ Some i
        → IfSome r.left (λ bytes. (file : Content) → IsFile file_limits bytes file
        → IsAnchored file.points file.edits
        → r.status ≡ 8 ↔ HasNoPart (plain_points file) (asked_alpha r.words) (asked_most r.words) i) }
    ensures near { (r : ARun) → Asks Queries r.words → r.status ≡ 0
        → IfSome r.left (λ bytes. (file : Content) → IsFile file_limits bytes file
        → IsAnchored file.points file.edits
        → (text : List ℕ) × IsQueried (plain_points file) file.queries text × Appends r.held r.holds text) }
    ensures near_front { (r : ARun) → Asks Queries r.words → r.status ≡ 4
        → IfSome r.left (λ bytes. (file : Content) → IsFile file_limits bytes file
        → IsAnchored file.points file.edits
        → (text : List ℕ) × IsQueried (plain_points file) file.queries text × AppendsFront r.held r.holds text) }
{}

/// A run that is to tell of solid parts. Of the points that its history leaves, status 9 comes exactly where there is
/// no alpha with so few parts, and 8 exactly where there is an alpha and no part of the index. On 0 the whole text is
/// written, and on 4 a front of it.
pub fn run_that_parts()
    ensures no_alpha { (r : ARun) → Asks Parts r.words → HasText r.status
        → IfSome r.left (λ bytes. r.status ≡ 9 ↔ HasNoAlpha (replay r.kept) (asked_most r.words)) }
    ensures no_part { (r : ARun) (i : ℕ) → Asks Parts r.words → HasText r.status → asked_index r.words ≡ Some i
        → IfSome r.left (λ bytes. r.status ≡ 8
        ↔ HasNoPart (replay r.kept) (asked_alpha r.words) (asked_most r.words) i) }
    ensures no_index { (r : ARun) → Asks Parts r.words → HasText r.status → asked_index r.words ≡ None
        → IfSome r.left (λ bytes. r.status ≢ 8) }
    ensures written { (r : ARun) → Asks Parts r.words → r.status ≡ 0
        → IfSome r.left (λ bytes. (text : List ℕ) × IsParted (replay r.kept) (asked_alpha r.words)
        (asked_most r.words) (asked_index r.words) 0 text × Appends r.held r.holds text) }
    ensures front { (r : ARun) → Asks Parts r.words → r.status ≡ 4
        → IfSome r.left (λ bytes. (text : List ℕ) × IsParted (replay r.kept) (asked_alpha r.words)
        (asked_most r.words) (asked_index r.words) 0 text × AppendsFront r.held r.holds text) }
    ensures complete { (r : ARun) → AreWordsTaken r.words → Asks Parts r.words
        → IfSome r.left (λ bytes. IsSolidFile bytes → (Rose r.read_faults r.read_faults_after → ⊥)
        → (Rose r.write_faults r.write_faults_after → ⊥) → IsWrittenWhole r.status ⊎ (r.status ≡ 1)) }
{}

/// A run that is to answer queries. Of the points that its history leaves the nearest to each query of the file is
/// told, in the order of the queries, with the square of its distance: on 0 the whole text is written, and on 4 a front
/// of it. Of a solid file within the limit it ends with 0 unless memory is wanting or the source or the output fails.
pub fn run_that_answers()
    ensures statuses { (r : ARun) → Asks Queries r.words → r.status ≤ 7 }
    ensures written { (r : ARun) → Asks Queries r.words → r.status ≡ 0
        → IfSome r.left (λ bytes. (file : Content) → IsFile file_limits bytes file
        → (nears : List Near) × AreNear (replay r.kept) file.queries nears
        × Appends r.held r.holds (near_text (replay r.kept) nears)) }
    ensures front { (r : ARun) → Asks Queries r.words → r.status ≡ 4
        → IfSome r.left (λ bytes. (file : Content) → IsFile file_limits bytes file
        → (nears : List Near) × AreNear (replay r.kept) file.queries nears
        × AppendsFront r.held r.holds (near_text (replay r.kept) nears)) }
    ensures complete { (r : ARun) → AreWordsTaken r.words → Asks Queries r.words
        → IfSome r.left (λ bytes. IsSolidFile bytes → (Rose r.read_faults r.read_faults_after → ⊥)
        → (Rose r.write_faults r.write_faults_after → ⊥) → (r.status ≡ 0) ⊎ (r.status ≡ 1)) }
{}

/// A run that is to judge a mesh. Of the bytes that it reads 7 comes exactly where they are more than they may be, and
/// else 5 exactly where they are the text of no mesh; 6, 8 and 9 never come, and nothing is kept. Where the whole text
/// is written, the status is 0 exactly where the mesh is the complex of its points, which are solid, and else 10. That
/// text is the verdict's, and on 4 a front of it is written.
pub fn run_that_checks()
    ensures statuses { (r : ARun) → Asks Checks r.words → (r.status ≤ 5) ⊎ (r.status ≡ 7) ⊎ (r.status ≡ 10) }
    ensures none_kept { (r : ARun) → Asks Checks r.words → r.kept ≡ [] }
    ensures too_long { (r : ARun) → Asks Checks r.words → (IsEarly r.status → ⊥)
        → IfSome r.left (λ bytes. r.status ≡ 7 ↔ (mesh_limit < length bytes)) }
    ensures bad_line { (r : ARun) → Asks Checks r.words → (IsEarly r.status → ⊥) → r.status ≢ 7
        → IfSome r.left (λ bytes. r.status ≡ 5 ↔ HasMeshFault bytes) }
    ensures bad_mesh { (r : ARun) → Asks Checks r.words → IsWrittenWhole r.status
        → IfSome r.left (λ bytes. (mesh : MeshParts) → IsMeshText bytes mesh
        → (r.status ≡ 10 ↔ (IsTrueMesh mesh → ⊥))) }
    ensures good { (r : ARun) → Asks Checks r.words → IsWrittenWhole r.status
        → IfSome r.left (λ bytes. (mesh : MeshParts) → IsMeshText bytes mesh → (r.status ≡ 0 ↔ IsTrueMesh mesh)) }
    ensures written { (r : ARun) → Asks Checks r.words → IsWrittenWhole r.status
        → IfSome r.left (λ bytes. (mesh : MeshParts) → IsMeshText bytes mesh
        → (verdict : Verdict) × IsVerdict mesh.points (as_cells mesh.cells mesh.hull) verdict
        × Appends r.held r.holds (verdict_text mesh.points verdict)) }
    ensures front { (r : ARun) → Asks Checks r.words → r.status ≡ 4
        → IfSome r.left (λ bytes. (mesh : MeshParts) → IsMeshText bytes mesh
        → (verdict : Verdict) × IsVerdict mesh.points (as_cells mesh.cells mesh.hull) verdict
        × AppendsFront r.held r.holds (verdict_text mesh.points verdict)) }
    ensures complete { (r : ARun) → AreWordsTaken r.words → Asks Checks r.words
        → IfSome r.left (λ bytes. IsMeshWithin bytes → (Rose r.read_faults r.read_faults_after → ⊥)
        → (Rose r.write_faults r.write_faults_after → ⊥) → IsWrittenWhole r.status ⊎ (r.status ≡ 1)) }
{}

/// A run that is to draw a file: what is written goes by the words alone, and it is written unless memory is wanting or
/// the output fails.
pub fn run_that_draws()
    ensures statuses { (r : ARun) → Asks Draws r.words → r.status ≤ 2 ⊎ (r.status ≡ 4) }
    ensures kept { (r : ARun) → Asks Draws r.words → asks_text r.words ≡ false → (r.status ≡ 0) ⊎ (r.status ≡ 4)
        → FileKeeps (drawn_file r.words).points (drawn_file r.words).edits (worker_count r.words) r.kept }
    ensures one_thread { (r : ARun) → Asks Draws r.words → asks_text r.words ≡ false → worker_count r.words ≡ 1
        → (r.status ≡ 0) ⊎ (r.status ≡ 4) → r.kept ≡ history_of (drawn_file r.words) }
    ensures text_kept { (r : ARun) → Asks Draws r.words → asks_text r.words ≡ true → r.kept ≡ [] }
    ensures written { (r : ARun) → Asks Draws r.words → r.status ≡ 0
        → Appends r.held r.holds (drawn_text r.words r.kept) }
    ensures front { (r : ARun) → Asks Draws r.words → r.status ≡ 4
        → AppendsFront r.held r.holds (drawn_text r.words r.kept) }
    ensures plain { (r : ARun) → Asks Draws r.words → r.status ≡ 0 → Appends r.held r.holds (plain_drawn r.words) }
    ensures plain_front { (r : ARun) → Asks Draws r.words → r.status ≡ 4
        → AppendsFront r.held r.holds (plain_drawn r.words) }
    ensures complete { (r : ARun) → AreWordsTaken r.words → Asks Draws r.words
        → (Rose r.write_faults r.write_faults_after → ⊥) → (r.status ≡ 0) ⊎ (r.status ≡ 1) }
{}
